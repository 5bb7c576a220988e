// The part of an archive that is a tree's record, by its place and by its bytes.
#![tactic(auto)]

ghost use Rattle.std.specs.Prelude.{◌≡◌};
ghost use Rattle.rules.specs.CallView.{view};
ghost use Rattle.archive_view.specs.Shows.{Shows};

use rules::Part;

/// The part of an archive that is a tree's record: no byte where there is no such tree, or the archive is refused.
pub fn part(s: &[u8], tree: usize) -> Part
    ensures { Shows s.now tree result }
{
    match archive::find(s, tree) {
        Ok((_, place)) => place,
        Err(_) => Part {
            start: 0,
            length: 0,
        },
    }
}

/// The bytes of that part.
pub fn view<'a>(s: &'a [u8], tree: usize) -> &'a [u8]
    ensures { result.now ≡ view s.now tree }
{
    let place = part(s, tree);
    let start = place.start;
    let end = start + place.length;
    &s[start..end]
}
