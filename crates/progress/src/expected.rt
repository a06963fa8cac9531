// Which line is expected next.

ghost use Rattle.std.specs.Prelude.{◌≡◌, ◌+◌};
ghost use Rattle.progress.specs.Expected.{line_place, number_of};

// The lines that open the account, in their order.
#[derive(Clone, Copy, PartialEq, Eq)]
pub enum OpeningLine {
    Opens,
    Rider,
    Class,
    Nameplates,
    Limit,
    Assisted,
    Prices,
    Demand,
    Standby,
    Bypass,
    Credit,
    Distribution,
    Basic,
    Minimum,
}

// After these a bill line, a critical line and runs follow; after a fault no line is expected.
#[derive(Clone, Copy, PartialEq, Eq)]
pub enum Expected {
    Opening(OpeningLine),
    Bill,
    Critical,
    Run,
    Stopped,
}

impl OpeningLine {
    // Its place among them, counted from 0.
    pub(crate) fn place(self) -> u32
        ensures { result ≡ line_place self }
    {
        self as u32
    }

    // What is expected after it. No derive gives the variant after one; a table of them, by place, would name each as well.
    pub(crate) fn next(self) -> Expected
        ensures { number_of result ≡ line_place self + 1 }
    {
        match self {
            OpeningLine::Opens => Expected::Opening(OpeningLine::Rider),
            OpeningLine::Rider => Expected::Opening(OpeningLine::Class),
            OpeningLine::Class => Expected::Opening(OpeningLine::Nameplates),
            OpeningLine::Nameplates => Expected::Opening(OpeningLine::Limit),
            OpeningLine::Limit => Expected::Opening(OpeningLine::Assisted),
            OpeningLine::Assisted => Expected::Opening(OpeningLine::Prices),
            OpeningLine::Prices => Expected::Opening(OpeningLine::Demand),
            OpeningLine::Demand => Expected::Opening(OpeningLine::Standby),
            OpeningLine::Standby => Expected::Opening(OpeningLine::Bypass),
            OpeningLine::Bypass => Expected::Opening(OpeningLine::Credit),
            OpeningLine::Credit => Expected::Opening(OpeningLine::Distribution),
            OpeningLine::Distribution => Expected::Opening(OpeningLine::Basic),
            OpeningLine::Basic => Expected::Opening(OpeningLine::Minimum),
            OpeningLine::Minimum => Expected::Bill,
        }
    }
}
