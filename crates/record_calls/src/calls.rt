// Opening, line and close, with every block lent.
ghost use Rattle.std.specs.Prelude.{◌≡◌};
ghost use Rattle.meaning.specs.Calls.{opening_of, line_of, close_of};
ghost use Rattle.readings.specs.Readings.{readings_view};
ghost use Rattle.readings.specs.Columns.{lent_blocks};
ghost use Rattle.close.specs.Ends.{close_repr};
ghost use Rattle.record_calls.specs.Views.{view, call_view, close_view};

use crate::{CallResult, CloseResult, Record};
use answers::{Answer, answer_to};
use close::{ReadBlocks, close_blocks};
use open_and_line::{apply_line, open_blocks};
use progress::State;
use readings::Reading;

impl Record {
    // Opens the record. Always allowed where the blocks have their sizes, whatever record and blocks hold.
    pub fn open(
        mut self,
        near: &mut [u32],
        far: &mut [u32],
        slots: &mut [u16],
        daily: &mut [u32],
        readings: &mut [Reading],
        curve: &mut [u64],
    ) -> CallResult
        ensures { call_view result (lent_blocks near.new far.new slots.new daily.new (readings_view readings.new) curve.new) ≡ opening_of (view self) (lent_blocks near.old far.old slots.old daily.old (readings_view readings.old) curve.old) }
    {
        match open_blocks(near, far, slots, daily, readings, curve) {
            Ok(()) => {
                self = Record::empty(State::Open);
                CallResult {
                    record: self,
                    answer: Answer::Accepted,
                }
            }
            Err(refusal) => CallResult {
                record: self,
                answer: answer_to(Err(refusal), self.count),
            },
        }
    }

    // Takes a line. 1 and 13 come first, and leave the record.
    pub fn line(
        mut self,
        line: &[u8],
        near: &mut [u32],
        far: &mut [u32],
        slots: &mut [u16],
        daily: &mut [u32],
        readings: &mut [Reading],
        curve: &[u64],
    ) -> CallResult
        ensures { call_view result (lent_blocks near.new far.new slots.new daily.new (readings_view readings.new) curve.now) ≡ line_of (view self) line.now (lent_blocks near.old far.old slots.old daily.old (readings_view readings.old) curve.now) }
    {
        let outcome = apply_line(
            self.state,
            self.count,
            &mut self.progress,
            line,
            near,
            far,
            slots,
            daily,
            readings,
            curve,
        );
        self.state = outcome.state;
        self.count = outcome.count;
        CallResult {
            record: self,
            answer: outcome.answer,
        }
    }

    // Closes the record. 1 and 13 leave it; 14 to 18 mark it refused.
    pub fn close<'a>(
        mut self,
        near: &'a [u32],
        far: &'a [u32],
        slots: &[u16],
        daily: &[u32],
        readings: &[Reading],
        curve: &mut [u64],
    ) -> CloseResult
        ensures { close_view result (lent_blocks near.now far.now slots.now daily.now (readings_view readings.now) curve.new) ≡ close_repr (close_of (view self) (lent_blocks near.now far.now slots.now daily.now (readings_view readings.now) curve.old)) }
    {
        let outcome = close_blocks(
            self.state,
            self.count,
            self.progress,
            ReadBlocks {
                near,
                far,
                slots,
                daily,
            },
            readings,
            curve,
        );
        self.state = outcome.state;
        let years = outcome.years;
        CloseResult {
            record: self,
            answer: outcome.answer,
            years,
        }
    }
}
