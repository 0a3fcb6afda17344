// The published rule on plain numbers: the comparison of a fraction with a draw, WriteP, and the write server of an id. This
// crate knows no table and no medium.
#![tactic(auto)]

ghost use Rattle.std.specs.Prelude.{◌≡◌, ℕ, ◌<◌, false, leb, length};
ghost use Rattle.std.specs.Option.{option_map_or};
ghost use Rattle.limits.specs.Limits.{max_servers};
ghost use Rattle.lists.specs.Below.{nth, total};
ghost use Rattle.draws.specs.Draw.{modulus, draw_of};
ghost use Rattle.placement.specs.Fraction.{exceeds, at_least};
ghost use Rattle.placement.specs.Rule.{share_of, write_server, Bounded};

// A fraction as document 01 keeps it: a pair, not reduced. What compares fractions are functions and no methods, as in specs/, where a
// fraction is the second of three arguments or the first of two.
#[derive(Clone, Copy)]
pub struct Fraction {
    pub num: u32,
    pub den: u32,
}

// Whether a fraction exceeds a draw's RAND, which is the draw over 2^32.
#[tactic(auto, unfolding(crate::specs::Fraction::exceeds))]
pub fn exceeds(f: Fraction, draw: u32) -> bool
    ensures { result ≡ exceeds modulus f draw }
{
    u64::from(draw) * u64::from(f.den) < u64::from(f.num) * 4294967296
}

// The greatest draw that a fraction exceeds, if it exceeds any, which it does where it is not 0.
pub fn limit(f: Fraction) -> Option<u32>
    ensures { (x : ℕ) → x < modulus → exceeds modulus f x ≡ option_map_or (λ greatest. leb x greatest) result false }
{
    let num = f.num;
    let den = f.den;
    if num == 0 {
        return None;
    }
    if num > den {
        return Some(u32::MAX);
    }
    Some(((u64::from(num) * 4294967296 - 1) / u64::from(den)) as u32)
}

// Whether one fraction is at least another.
#[tactic(auto, unfolding(crate::specs::Fraction::at_least))]
pub fn at_least(p: Fraction, q: Fraction) -> bool
    ensures { result ≡ at_least p q }
{
    u64::from(q.num) * u64::from(p.den) <= u64::from(p.num) * u64::from(q.den)
}

// WriteP of a server with this weight, `sum` being the weights of the servers up to it, its own among them.
#[tactic(auto, unfolding(crate::specs::Rule::share_of))]
pub fn write_p(server: usize, weight: u32, sum: u32) -> Fraction
    ensures { result ≡ share_of server weight sum }
{
    if server == 0 {
        return Fraction { num: 1, den: 1 };
    }
    if weight == 0 {
        return Fraction { num: 0, den: 1 };
    }
    Fraction {
        num: weight,
        den: sum,
    }
}

// Whether a server with this fraction takes an id under a salt: the fraction exceeds the server's draw. With WriteP it is the
// write rule, with ReadP the read rule.
pub fn takes(f: Fraction, salt: u32, id: u32, server: usize) -> bool
    requires server_lt_max_servers { server < max_servers }
    ensures { result ≡ exceeds modulus f (draw_of salt id server) }
{
    exceeds(f, draws::draw(salt, id, server))
}

// The sum of the weights.
pub fn sum_weights(weights: &[u32]) -> u32
    requires { Bounded weights.now (length weights.now) }
    ensures { result ≡ total (nth weights.now) (length weights.now) }
{
    weights.iter().sum()
}

// The write server of an id under a salt among the servers of these weights: from the highest down, the first whose WriteP exceeds
// its draw. Server 0 takes what no other does, so that the loop ends above it. A weight of 0 needs no case of its own, since a
// fraction of 0 exceeds no draw.
pub fn write_server(weights: &[u32], salt: u32, id: u32) -> usize
    requires { Bounded weights.now (length weights.now) }
    ensures { result ≡ write_server (nth weights.now) (length weights.now) salt id }
{
    let mut sum = sum_weights(weights);
    for k in (1..weights.len()).rev() {
        let weight = weights[k];
        let write = Fraction {
            num: weight,
            den: sum,
        };
        if takes(write, salt, id, k) {
            return k;
        }
        sum -= weight;
    }
    0
}
