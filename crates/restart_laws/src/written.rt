//! Laws of a stage that was written.

ghost use Rattle.restart_laws.specs.Written.{NoOtherIsRead, WrittenIsRead};

/// What was written is read as the same stage: over its file no other is answered, and no fault.
pub fn written_law()
    ensures read { WrittenIsRead }
    ensures same { NoOtherIsRead }
{}
