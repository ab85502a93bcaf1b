//! How far a long run is, told once a second.
use std::rt::Clock;
use std::time::Instant;

/// How many thousandths of a second are between two lines.
const PAUSE: u64 = 1000;

/// How far a run is: how many frames were asked for, when it began, and when that was told last.
#[derive(Drop)]
pub(crate) struct Progress {
    asked: u32,
    begun: Option<Instant>,
    told: u64,
}

impl Progress {
    /// A run that begins now, which is told of if that is asked for.
    pub(crate) fn begin<R: Clock>(rt: &R, asked: u32, is_on: bool) -> Progress {
        let begun = if is_on { Instant::now(rt).ok() } else { None };
        Progress {
            asked,
            begun,
            told: 0,
        }
    }

    /// Tells on standard error that a frame was done, where a second has gone by since the last line. A failure is passed over.
    pub(crate) fn tell<R: Clock + Eprint>(&mut self, rt: &R, frame: u32, entities: usize) {
        let Some(begun) = self.begun else {
            return;
        };
        let Ok(now) = Instant::now(rt) else {
            return;
        };
        let spent = thousandths(now, begun);
        if spent < self.told.saturating_add(PAUSE) {
            return;
        }
        self.told = spent;
        let asked = self.asked;
        let rate = rate_of(frame, spent);
        let _ = eprintln!(rt;
            "frame {frame} of {asked}, {entities} entities, {rate} frames a second"
        );
    }
}

/// The thousandths of a second from one instant to another.
fn thousandths(now: Instant, begun: Instant) -> u64 {
    match now.checked_duration_since(begun) {
        Some(spent) => spent
            .as_secs()
            .saturating_mul(1000)
            .saturating_add(u64::from(spent.subsec_millis())),
        None => 0,
    }
}

/// How many frames were done in a second.
fn rate_of(frames: u32, thousandths: u64) -> u64 {
    let frames = u64::from(frames).saturating_mul(1000);
    match frames.checked_div(thousandths) {
        Some(rate) => rate,
        None => 0,
    }
}
