//! What a keeper is told: each closed norm of each stage, in order, each once.

ghost use Rattle.std.specs.Prelude.{None, ⊤};

use crate::systems::at_the_edge;
use lift_run::{Keep, Limits, run_system};
use outside::PutEnd;
use stage_store::Stage;
use std::alloc::{AllocError, Global};
use std::test::Fail;
use std::thread::Threads;
use worker_gate::FreeGate;

// A line for each closed norm: the stage, the norm, the number of listed rows and the used pairs.
#[derive(Drop)]
struct Diary {
    alloc: Global,
    text: String,
}

impl Diary {
    // Adds the line of a stage.
    fn push(&mut self, stage: &Stage) -> Result<(), AllocError> {
        let line = format!(in self.alloc;
            "{} {} {} {}\n",
            stage.number(),
            stage.norm(),
            stage.len(),
            stage.used()
        )?;
        self.text.push_str(line.as_str())
    }
}

impl Keep for Diary {
    type State = ();

    ghost state = { λ _. None };

    ghost faults = { λ _. 0 };

    ghost after = { λ s _. s };

    ghost torn = { λ _ _ _. ⊤ };

    fn norm_closed(&mut self, stage: &Stage) -> Result<(), PutEnd> {
        match self.push(stage) {
            Ok(()) => Ok(()),
            Err(_) => Err(PutEnd::Memory),
        }
    }
}

// Runs a system of two equations. Whether the run finishes.
fn finishes<R: Threads + Sync>(
    rt: &R,
    alloc: Global,
    diary: &mut Diary,
) -> Result<bool, AllocError> {
    let limits = Limits::default();
    Ok(run_system(rt, alloc, at_the_edge(alloc)?, limits, &FreeGate, diary).is_ok())
}

#[test]
fn each_closed_norm_is_told_once(rt: HostRuntime) -> Result<(), Fail> {
    let mut diary = Diary {
        alloc: rt.alloc(),
        text: String::new(rt.alloc()),
    };
    assert!(rt; finishes(&rt, rt.alloc(), &mut diary)?);
    assert_eq!(rt;
        diary.text.as_str(),
        "1 1 3 0\n1 2 4 1\n2 1 1 1\n2 2 2 1\n2 3 3 2\n"
    );
    Ok(())
}
