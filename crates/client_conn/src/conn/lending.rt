//! Publications that are lent: those that stand one behind another in what was read are published without a message.

ghost use Rattle.std.specs.Prelude.{◌≡◌, ◌≤◌, length, IfSome, IsSomeAnd};
ghost use Rattle.wire_cut.specs.Reading.{waits};
ghost use Rattle.client_frames.specs.declared.client_line.Awaited.TheVariants as awaits;
ghost use Rattle.client_conn.specs.Lent.{IsRunOf, UsesUp};
ghost use Rattle.client_conn.specs.Streams.{end_of};

use super::{Conn, ItemReader};
use client_frames::Awaited;
use publication_runs::{LentRun, run_is_read};

impl ItemReader {
    /// The publications that are lent, at most so many.
    #[inline(always)]
    fn lent_run(&self, most: usize, echo: bool) -> Option<LentRun<'_>>
        ensures { IfSome result (λ lent.
            (end_of self.now ≡ waits awaits.Line lent.run.behind)
            × (lent.echo ≡ echo)
            × (lent.run.left ≡ most)) }
    {
        if self.ended || !matches!(self.awaited, Awaited::Line) {
            return None;
        }
        LentRun::new(self.cutter.unread(), most, echo)
    }
}

impl Conn {
    /// The publications on one subject that are lent, at most so many: those of a client that is not told of what is done, where nothing
    /// else stands to be asked. Whoever has published some of them says so ([`Conn::use_up_to`]); all others are what [`Conn::next`] asks.
    #[inline(always)]
    pub fn lent_run(&self, most: usize) -> Option<LentRun<'_>>
        ensures lent { IfSome result (IsRunOf self.now) }
        ensures most { IfSome result (λ lent. lent.run.left ≡ most) }
    {
        if self.open_asks.options.verbose || !self.open_asks.is_empty() {
            return None;
        }
        self.reader.lent_run(most, self.open_asks.options.echo)
    }

    /// Publications that were lent are published: all but so many bytes are used up. Takes no memory. Required: something is lent, and
    /// it has so many bytes.
    pub fn use_up_to(&mut self, left: usize)
        requires { IsSomeAnd self.old.lends (λ lends. left ≤ length lends.text) }
        ensures asks { UsesUp left self.old self.new.asking }
    {
        run_is_read();
        self.reader.cutter.consume_to(left);
    }
}
