// The fields of a line, one after the other: they are parted by one space, so an empty line has one, which is
// empty.
ghost use Rattle.std.specs.Prelude.{◌≡◌, eqb};
ghost use Rattle.std.specs.List.{position};
ghost use Rattle.std.specs.Iterator.{YieldsFirstBy, item_count};
ghost use Rattle.model.specs.Text.{space, split};
ghost use Rattle.reading.specs.LineFields.{fields_left};

// The fields that are left: those of `rest`, or none behind the last one.
#[derive(Drop)]
pub struct Fields<'a> {
    rest: Option<&'a [u8]>,
}

impl<'a> Fields<'a> {
    // All fields of a line.
    pub fn new(line: &'a [u8]) -> Fields<'a>
        ensures { fields_left result ≡ split space line.now }
    {
        Fields { rest: Some(line) }
    }
}

// Where the first space stands.
#[inline(always)]
fn first_space(line: &[u8]) -> Option<usize>
    ensures { result ≡ position (λ c. eqb c space) line.now }
{
    line.iter().position(|c| *c == b' ')
}

impl<'a> Iterator for Fields<'a> {
    type Item = &'a [u8];

    ghost next_gives = { YieldsFirstBy (λ x. x.now) fields_left };

    ghost remaining = { item_count fields_left };

    #[inline(always)]
    #[tactic(auto, using(crate::proofs::FirstField::split_some, crate::proofs::FirstField::split_none))]
    fn next(&mut self) -> Option<&'a [u8]> {
        let line = self.rest?;
        let Some(at) = first_space(line) else {
            self.rest = None;
            return Some(line);
        };
        self.rest = Some(&line[at + 1..]);
        Some(&line[..at])
    }
}
