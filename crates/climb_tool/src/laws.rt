//! The laws of steps. Each function does nothing: what it ensures is the law.
ghost use Rattle.climb_tool.specs.Laws.{CostFalls, StuckIsOptimal};

/// Each step lowers the cost, and where no vector of a Graver basis helps, the point is optimal.
pub fn step_law()
    ensures falls { CostFalls }
    ensures optimal { StuckIsOptimal }
{}
