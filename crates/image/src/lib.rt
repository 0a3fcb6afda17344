// The image of a table, the words by which it is carried from one place to another; definitions and laws alone, in specs/ and proofs/.
// `image_writer` writes images, and `image_reader` reads them.
#![tactic(auto)]
