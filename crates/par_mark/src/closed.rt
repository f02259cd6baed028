// What holds after marking.
ghost use Rattle.par_mark.specs.Closed.{ClosesUp};

/// If each edge of a black cell led to a black one before, except edges of the cells that marking began
/// from, then after marking each edge of a black cell leads to a black one or to one of `outside`. So
/// when main has exposed those, black cells lead to black cells, and none is left to scan.
pub fn closes_up_law()
    ensures { ClosesUp }
{}
