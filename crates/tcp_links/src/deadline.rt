// By when something is to be done.
use crate::stopping::StopSignal;
use std::io;
use std::io::ErrorKind;
use std::time::{Clock, Duration, Instant};

/// How long a call waits before it looks again whether it still may, in milliseconds.
const LOOK: u64 = 100;

/// Something is to be done by `most` after `since`, and what waits is to end at once where a program stops.
#[derive(Drop)]
pub struct Deadline<'a, R: Clock> {
    pub rt: &'a R,
    pub stop: &'a StopSignal,
    pub since: Instant,
    pub most: Duration,
}

/// What a call answers that isn't done in time.
pub fn time_is_up() -> io::Error {
    io::Error::from(ErrorKind::TimedOut)
}

/// Whether a call that ended so is made again: it came to nothing within a look, or a signal interrupted it.
pub fn is_made_again(ended: ErrorKind) -> bool {
    matches!(ended, ErrorKind::WouldBlock | ErrorKind::Interrupted)
}

impl<'a, R: Clock> Deadline<'a, R> {
    /// By `most` from now on.
    pub fn within(rt: &'a R, stop: &'a StopSignal, most: Duration) -> io::Result<Self> {
        let since = Instant::now(rt)?;
        Ok(Deadline {
            rt,
            stop,
            since,
            most,
        })
    }

    /// By `most` from now on, in place of what it was.
    pub fn renew(&mut self, most: Duration) -> io::Result<()> {
        self.since = Instant::now(self.rt)?;
        self.most = most;
        Ok(())
    }

    /// How much time there is, which is more than nothing.
    pub fn left(&self) -> io::Result<Duration> {
        let spent = self.since.elapsed(self.rt)?;
        match self.most.checked_sub(spent) {
            Some(left) if !left.is_zero() => Ok(left),
            _ => Err(time_is_up()),
        }
    }

    /// How long a call may wait before it asks again, which is more than nothing. None may where the program stops.
    pub fn wait(&self) -> io::Result<Duration> {
        if self.stop.is_raised() {
            return Err(time_is_up());
        }
        Ok(self.left()?.min(Duration::from_millis(LOOK)))
    }
}
