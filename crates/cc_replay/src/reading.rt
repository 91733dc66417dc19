//! How a trace is read.
ghost use Rattle.std.specs.Prelude.{◌≡◌};
ghost use Rattle.cc_replay.specs.Reading.{is_due, is_over, is_regular, progress_after, ran_out, reason_of};

use crate::formats::TraceFormat;

/// How a trace is read.
#[derive(Clone, Copy)]
pub struct Reading {
    /// The format of the trace.
    pub format: TraceFormat,
    /// Whether no line is taken after the first that is refused.
    pub is_strict: bool,
    /// The number of events from a sample of the series to the next, if there is a series. With 0, only sweeps and the
    /// end have samples.
    pub each: Option<u64>,
}

/// Why a series has a sample.
#[derive(Clone, Copy)]
pub enum SampleReason {
    /// The number of the event is a multiple of the given one.
    Regular,
    /// The event led to a sweep, and its number is not such a multiple.
    Swept,
    /// The trace ends, and its last event has no sample.
    Last,
}

/// Whether lines are taken.
#[derive(Clone, Copy)]
pub enum Progress {
    /// Lines are taken.
    Running,
    /// No line is taken after one that was refused.
    Stopped,
    /// No line is taken, since an allocation failed.
    OutOfMemory,
}

impl Progress {
    /// Returns whether no further line is taken.
    pub fn is_over(self) -> bool
        ensures { result ≡ is_over self }
    {
        match self {
            Progress::Running => false,
            Progress::Stopped | Progress::OutOfMemory => true,
        }
    }

    /// Returns whether an allocation failed.
    pub fn is_out_of_memory(self) -> bool
        ensures { result ≡ ran_out self }
    {
        match self {
            Progress::OutOfMemory => true,
            Progress::Running | Progress::Stopped => false,
        }
    }
}

impl Reading {
    /// Returns whether lines are taken after one that is refused or not.
    pub fn progress_after(self, is_refused: bool) -> Progress
        ensures { result ≡ progress_after self is_refused }
    {
        if self.is_strict && is_refused {
            Progress::Stopped
        } else {
            Progress::Running
        }
    }

    /// Returns whether the event of this number has a sample, if these are the numbers of sweeps
    /// before it and after it.
    pub fn is_due(self, event: u64, sweeps: u64, sweeps_now: u64) -> bool
        ensures { result ≡ is_due self event sweeps sweeps_now }
    {
        self.is_regular(event) || self.each.is_some() && sweeps_now != sweeps
    }

    /// Returns the reason of the sample of the event of this number, if it has one.
    pub fn reason_of(self, event: u64) -> SampleReason
        ensures { result ≡ reason_of self event }
    {
        if self.is_regular(event) {
            SampleReason::Regular
        } else {
            SampleReason::Swept
        }
    }

    /// Returns whether the event of this number has a sample for its number.
    fn is_regular(self, event: u64) -> bool
        ensures { result ≡ is_regular self event }
    {
        match self.each {
            Some(each) => each != 0 && event % each == 0,
            None => false,
        }
    }
}
