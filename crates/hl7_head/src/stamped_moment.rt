ghost use Rattle.std.specs.Prelude.{◌≡◌};
ghost use Rattle.hl7_head.specs.Stamp.{stamp as stamp_of};

use crate::moment::Moment;
use crate::time_stamp::{STAMP_BYTES, stamp};
use std::marker::Model;

/// A moment with its stamp, which is made once for all acknowledgments of one second.
#[derive(Drop)]
pub struct StampedMoment {
    moment: Moment,
    text: [u8; STAMP_BYTES],
}

impl Model for StampedMoment {
    ghost use Rattle.std.specs.Prelude.{◌≡◌, ℕ};
    ghost use Rattle.hl7_head.specs.Stamp.{stamp};

    ghost Value = { ℕ };

    ghost view = { λ s. s.moment };

    ghost invariant = { λ s. s.text ≡ stamp s.moment };
}

impl StampedMoment {
    /// That moment.
    pub fn new(moment: Moment) -> StampedMoment
        ensures { result ≡ moment }
    {
        StampedMoment {
            moment,
            text: stamp(moment),
        }
    }

    /// Makes it that moment. Where it is that moment already, the stamp is kept.
    pub fn set(&mut self, moment: Moment)
        ensures { self.new ≡ moment }
    {
        if self.moment != moment {
            *self = StampedMoment::new(moment);
        }
    }

    /// The moment as MSH-7 bears it.
    pub fn text(&self) -> &[u8; STAMP_BYTES]
        ensures { result.now ≡ stamp_of self.now }
    {
        &self.text
    }
}
