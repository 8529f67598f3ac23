// The calls of a stage.
ghost use Rattle.std.specs.Prelude.{◌≡◌, true, false, set, None, MatchOption, slice_set};
ghost use Rattle.region.specs.Positions.{has, column_of, row_of};
ghost use Rattle.machine.specs.Calls.{opening, patching, blending, abandoning, clearing};
ghost use Rattle.views.specs.View.{View, fresh, image_of, shown_at};
ghost use Rattle.views.specs.Step.{Step, Start};
ghost use Rattle.views.specs.Runs.{Laws};
ghost use Rattle.stage.specs.Stages.{view_of, stamp_of, said_open, said_done, said_spent, Back, why_not};

use crate::stage::Stage;
use crate::ticket::Ticket;
use canvas::{OpenFrame, Patch, Terms, blend_frame, copy_picture, draw_patch};
use checks::starts::start_refusal;
use machine::{FrameRecord, Header, PatchRecord, Rectangle, Shown, Stamp};
use picture::Picture;
use refusal::Refusal;
use region::Region;
use steps::{column_of, row_of};
use store::Store;

// The column and the row of a position; none where the region does not have it.
fn place_of(region: Region, x: i32, y: i32) -> Option<(usize, usize)>
    ensures { MatchOption result (has region x y ≡ false) (λ place. (has region x y ≡ true) × (place.0 ≡ column_of region x) × (place.1 ≡ row_of region y)) }
{
    let column = column_of(region, i64::from(x))?;
    let row = row_of(region, i64::from(y))?;
    Some((column, row))
}

// The flags with one of them set or cleared; the same flags where there is no such slot.
fn with_flag(mut filled: [bool; 4], slot: u32, flag: bool) -> [bool; 4]
    ensures { result ≡ slice_set filled slot flag }
{
    // By the index: after `get_mut` a proof knows none of the flags.
    let slot = slot as usize;
    if slot < 4 {
        filled[slot] = flag;
    }
    filled
}

// The ticket is spent, unless the call that asked for it was refused: then it comes back.
fn spent(ticket: Ticket, outcome: Result<(), Refusal>) -> Result<(), (Refusal, Ticket)>
    ensures said { said_spent result ≡ said_done outcome }
    ensures back { Back ticket result }
{
    match outcome {
        Ok(()) => {
            let Ticket { stamp: _ } = ticket;
            Ok(())
        }
        Err(refusal) => Err((refusal, ticket)),
    }
}

impl<S: Store> Stage<S> {
    // Not started, over a store for life, whatever that holds.
    pub fn new(store: S) -> Stage<S>
        ensures { view_of S.Store.held result ≡ record { setup = None; book = fresh; held = S.Store.held store } }
    {
        Stage {
            store,
            terms: None,
            opened: None,
            filled: [false; 4],
            last: 0,
        }
    }

    // Starts the stage, all slots empty. Here and in the calls below arguments are plain numbers and slices, as callers have them: whatever is handed
    // over is taken, or refused in the order of the checks.
    // The second clause is what every run of every stage keeps to.
    pub fn start(
        &mut self,
        mark: u32,
        region: Region,
        colors: u32,
        kinds: &[u8],
    ) -> Result<(), Refusal>
        ensures start { Start (view_of S.Store.held self.old) mark region colors kinds.now (why_not result) (view_of S.Store.held self.new) }
        ensures laws { Laws }
    {
        Refusal::AlreadyStarted.unless(self.terms.is_none())?;
        start_refusal(self.size(), region, colors, kinds)?;
        let terms = Terms::new(mark, region, colors, kinds).ok_or(Refusal::ChannelKinds)?;
        self.terms = Some(terms);
        self.opened = None;
        self.filled = [false; 4];
        self.last = 0;
        Ok(())
    }

    // Opens a frame with its picture. The ticket is to be spent by `blend` or `abandon`.
    pub fn open<P: Picture>(
        &mut self,
        header: Header,
        records: &[FrameRecord],
        picture: &P,
    ) -> Result<Ticket, Refusal>
        ensures { Step (view_of S.Store.held self.old) (opening header records.now (image_of (P.Picture.meaning picture.now))) (said_open result) (view_of S.Store.held self.new) }
    {
        let terms = self.terms.ok_or(Refusal::NotStarted)?;
        self.admit_open(&terms, header, records, picture)?;
        let frame = OpenFrame::new(header, records, picture.region()).ok_or(Refusal::RecordCount)?;
        copy_picture(&terms, &mut self.store, header, picture);
        self.opened = Some(frame);
        let stamp = Stamp {
            mark: terms.mark,
            number: header.number,
        };
        Ok(Ticket { stamp })
    }

    // Draws a part of a sheet onto the open frame.
    pub fn patch<P: Picture>(
        &mut self,
        ticket: &Ticket,
        rectangle: Rectangle,
        x: i32,
        y: i32,
        records: &[PatchRecord],
        sheet: &P,
    ) -> Result<(), Refusal>
        ensures { Step (view_of S.Store.held self.old) (patching (stamp_of ticket.now) (record { rectangle = rectangle; x = x; y = y; records = records.now; sheet = image_of (P.Picture.meaning sheet.now) })) (said_done result) (view_of S.Store.held self.new) }
    {
        let terms = self.terms.ok_or(Refusal::NotStarted)?;
        let patch = Patch {
            rectangle,
            x,
            y,
            records,
            sheet,
        };
        self.admit_patch(&terms, ticket, &patch)?;
        let frame = self.opened.ok_or(Refusal::NoFrameOpen)?;
        draw_patch(&terms, &mut self.store, &frame, &patch);
        Ok(())
    }

    // Blends the open frame into its target and spends the ticket, which comes back where it is refused.
    pub fn blend(&mut self, ticket: Ticket) -> Result<(), (Refusal, Ticket)>
        ensures step { Step (view_of S.Store.held self.old) (blending (stamp_of ticket)) (said_spent result) (view_of S.Store.held self.new) }
        ensures back { Back ticket result }
    {
        let outcome = self.blend_by(&ticket);
        spent(ticket, outcome)
    }

    fn blend_by(&mut self, ticket: &Ticket) -> Result<(), Refusal>
        ensures { Step (view_of S.Store.held self.old) (blending (stamp_of ticket.now)) (said_done result) (view_of S.Store.held self.new) }
    {
        let terms = self.terms.ok_or(Refusal::NotStarted)?;
        self.admit_draw(&terms, ticket)?;
        let frame = self.opened.ok_or(Refusal::NoFrameOpen)?;
        blend_frame(&terms, &mut self.store, &frame, &self.filled);
        self.filled = with_flag(self.filled, frame.header.target, true);
        self.opened = None;
        self.last = frame.header.number;
        Ok(())
    }

    // Gives the open frame up and spends the ticket, which comes back where it is refused.
    pub fn abandon(&mut self, ticket: Ticket) -> Result<(), (Refusal, Ticket)>
        ensures step { Step (view_of S.Store.held self.old) (abandoning (stamp_of ticket)) (said_spent result) (view_of S.Store.held self.new) }
        ensures back { Back ticket result }
    {
        let outcome = self.abandon_by(&ticket);
        spent(ticket, outcome)
    }

    fn abandon_by(&mut self, ticket: &Ticket) -> Result<(), Refusal>
        ensures { Step (view_of S.Store.held self.old) (abandoning (stamp_of ticket.now)) (said_done result) (view_of S.Store.held self.new) }
    {
        let terms = self.terms.ok_or(Refusal::NotStarted)?;
        self.admit_abandon(&terms, ticket)?;
        self.opened = None;
        Ok(())
    }

    // Empties a slot.
    pub fn clear(&mut self, slot: u32) -> Result<(), Refusal>
        ensures { Step (view_of S.Store.held self.old) (clearing slot) (said_done result) (view_of S.Store.held self.new) }
    {
        let terms = self.terms.ok_or(Refusal::NotStarted)?;
        self.admit_clear(&terms, slot)?;
        self.filled = with_flag(self.filled, slot, false);
        Ok(())
    }

    // What a slot shows at a channel and a position. Outside comes first: no start, no such slot, channel or position. Its answer has two cases without a
    // sample, so that no `?` on an `Option` serves for both.
    pub fn show(&self, slot: u32, channel: u32, x: i32, y: i32) -> Shown
        ensures { result ≡ shown_at (view_of S.Store.held self.now) slot channel x y }
    {
        let Some(terms) = self.terms else {
            return Shown::Outside;
        };
        let Some((column, row)) = place_of(terms.region, x, y) else {
            return Shown::Outside;
        };
        let channels = terms.channels();
        if slot >= 4 {
            return Shown::Outside;
        }
        if channel >= channels {
            return Shown::Outside;
        }
        if !self.filled[slot as usize] {
            return Shown::Empty;
        }
        let plane = slot * channels + channel;
        Shown::Sample(self.store.get(plane as usize, column, row))
    }
}
