//! A part of a norm on its way from a worker.

ghost use Rattle.std.specs.Prelude.{◌≡◌, ◌<◌, ◌≤◌, IsTrue};
ghost use Rattle.lift_core.specs.Stages.{IsNextNorm};
ghost use Rattle.stage_store.specs.Stage.{IsDefined};
ghost use Rattle.standing_pool.specs.Inside.Gathered.{FitsPart};

use crate::sums::part_sums;
use lift_core::System;
use row_pool::Pool;
use stage_store::{Hints, Stage};
use std::alloc::Global;
use std::marker::Model;
use std::sync::Arc;

/// The irreducible sums of one part of a norm, each once, in order. That they are so, over the lists that the system defines at
/// the place, is a part of the type.
#[derive(Drop)]
pub(crate) struct PartRows {
    system: Arc<System, Global>,
    number: u32,
    closed: u64,
    norm: u64,
    part: u32,
    parts: u32,
    rows: Pool,
}

impl Model for PartRows {
    ghost use Rattle.std.specs.Arc.{arc_value};
    ghost use Rattle.standing_pool.specs.Standing.{PartValue, IsPart};

    ghost Value = { PartValue };

    ghost view = { λ p. record {
      system = (arc_value p.system);
      number = p.number;
      closed = p.closed;
      norm = p.norm;
      part = p.part;
      parts = p.parts;
      rows = p.rows;
    } };

    ghost invariant = { λ p.
        IsPart (arc_value p.system).equations p.number p.closed p.norm p.part p.parts p.rows };
}

impl PartRows {
    /// Works out a part of the stage's next norm; nothing where memory ran out, or where the stage is of another system.
    pub(crate) fn work_out(
        alloc: Global,
        system: &Arc<System, Global>,
        stage: &Stage,
        norm: u64,
        part: u32,
        parts: u32,
        hints: &mut Hints,
    ) -> Option<PartRows>
        requires some { 0 < parts }
        requires defined { IsDefined stage.now }
        requires next { IsNextNorm stage.now.listed stage.now.waiting stage.now.norm norm }
        requires small { norm ≤ 9223372036854775807 }
    {
        if !system.same(stage.system()) {
            return None;
        }
        let Ok(rows) = part_sums(alloc, stage, norm, part, parts, hints) else {
            return None;
        };
        let Ok(system) = Arc::try_clone(system) else {
            return None;
        };
        Some(PartRows {
            system,
            number: stage.number(),
            closed: stage.norm(),
            norm,
            part,
            parts,
            rows,
        })
    }

    /// Whether it is of this place and norm, and has this number among so many parts.
    fn is_at(&self, stage: &Stage, norm: u64, part: u32, parts: u32) -> bool
        ensures place { IsTrue result →
            (self.now.number ≡ stage.now.number) × (self.now.closed ≡ stage.now.norm) }
        ensures part { IsTrue result →
            (self.now.norm ≡ norm) × (self.now.part ≡ part) × (self.now.parts ≡ parts) }
    {
        if self.number != stage.number() || self.closed != stage.norm() {
            return false;
        }
        self.norm == norm && self.part == part && self.parts == parts
    }

    /// Whether it is this part of that norm of the stage.
    pub(crate) fn fits(&self, stage: &Stage, norm: u64, part: u32, parts: u32) -> bool
        requires { IsDefined stage.now }
        ensures { IsTrue result → FitsPart stage.now norm part parts self.now.rows }
    {
        if !self.is_at(stage, norm, part, parts) {
            return false;
        }
        self.system.same(stage.system())
    }

    /// The sums.
    pub(crate) fn rows(&self) -> &Pool
        ensures { result.now ≡ self.now.rows }
    {
        &self.rows
    }
}
