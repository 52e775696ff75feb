// The worked figures: the written rules give each of them.
ghost use Rattle.std.specs.Prelude.{◌≡◌, length};
ghost use Rattle.tariff.specs.Worked.{lines, WorkedFigures};

// How many figures were worked by hand; the rules give every one.
pub fn worked_figures() -> usize
    ensures count { result ≡ length lines }
    ensures hold { WorkedFigures }
{
    15
}
