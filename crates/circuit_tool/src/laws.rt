//! The laws of circuits. The function does nothing: what it ensures is the law.
ghost use Rattle.circuit_tool.specs.Laws.{LeastRowsAreCircuits};

/// Of a Graver basis, the rows of least support are exactly the circuits.
pub fn circuit_law()
    ensures { LeastRowsAreCircuits }
{}
