ghost use Rattle.hrthood_top.specs.DeadlineReports.{WritesAsAnalysed, WritesByDeadline};

/// Where a design keeps its limits by the order of deadlines, `search` writes the lines of `analyse`.
pub fn searched_as_analysed()
    // By the least bounds that the design has in this order.
    ensures by_deadline { WritesByDeadline }
    // By what `analyse` writes, which it does unless the Ada text would be too long.
    ensures same { WritesAsAnalysed }
{}
