// The number of a refusal's kind, for all that hand an answer on as numbers.
#![tactic(auto)]

ghost use Rattle.std.specs.Prelude.{◌≡◌};
ghost use Rattle.rules.specs.Answer.{number_of};

use rules::Kind;

/// The number of a kind in the table of refusals. It would be `impl From<Kind> for u64`, which only the crate of Kind may write; and in
/// `rules` stand definitions alone.
#[tactic(auto, unfolding(rules::specs::Answer::number_of))]
pub fn number_of(kind: Kind) -> u64
    ensures { result ≡ number_of kind }
{
    match kind {
        Kind::LeafCount => 1,
        Kind::InputLength => 2,
        Kind::Room => 3,
        Kind::Entry => 4,
        Kind::Parent => 5,
        Kind::Child => 6,
        Kind::NamedBefore => 7,
        Kind::Grammar => 8,
        Kind::StrayLabel => 9,
        Kind::Padding => 10,
        Kind::Permutation => 11,
        Kind::TreeNumber => 12,
        Kind::DoubleLabel => 13,
        Kind::CladeLeaves => 14,
        Kind::CladeRoom => 15,
        Kind::TreeCount => 21,
    }
}
