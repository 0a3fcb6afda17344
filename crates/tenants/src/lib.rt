// Tenants, the paper's clubs: whose an id is, and what a call's tenant and id are tested for.
#![tactic(auto)]

ghost use Rattle.std.specs.Prelude.{◌≡◌};
ghost use Rattle.tenants.specs.Tenant.{tenant_of, out_of_range, of_another};

use limits::{CONTENT_RANGE, TENANT_RANGE, TENANTS};

// The tenant of an id: the top three of its 30 bits.
#[tactic(auto, unfolding(crate::specs::Tenant::tenant_of))]
pub fn tenant_of(id: u32) -> u32
    ensures { result ≡ tenant_of id }
{
    id / TENANT_RANGE
}

// Whether the caller's tenant or the id is out of range.
#[tactic(auto, unfolding(crate::specs::Tenant::out_of_range))]
pub fn out_of_range(tenant: u32, id: u32) -> bool
    ensures { result ≡ out_of_range tenant id }
{
    TENANTS <= tenant as usize || CONTENT_RANGE <= id
}

// Whether the id is another tenant's than the caller's.
#[tactic(auto, unfolding(crate::specs::Tenant::of_another))]
pub fn of_another(tenant: u32, id: u32) -> bool
    ensures { result ≡ of_another tenant id }
{
    tenant_of(id) != tenant
}
