// Whether a call is taken: the first of its conditions that is broken, in their order.
ghost use Rattle.std.specs.Prelude.{◌≡◌};
ghost use Rattle.std.specs.Result.{result_err};
ghost use Rattle.machine.specs.Calls.{opening, patching, blending, abandoning, clearing};
ghost use Rattle.store.specs.Held.{Held};
ghost use Rattle.machine.specs.Checks.{Setup, first_broken, open_checks, patch_checks, fits_store};
ghost use Rattle.machine.specs.Machine.{open_number};
ghost use Rattle.views.specs.View.{size_of, frame_at, image_of};
ghost use Rattle.canvas.specs.Fields.{setup_from, patch_from};
ghost use Rattle.stage.specs.Stages.{opened_in, refusal_in, stamp_of};

use crate::stage::Stage;
use crate::ticket::Ticket;
use canvas::{Patch, Terms};
use checks::arguments::{Channels, Shape, open_refusal, patch_refusal};
use machine::{FrameRecord, Header, Size};
use picture::Picture;
use refusal::Refusal;
use states::{clear_state, drawing_state, fits_store, open_state, ticket_state};
use store::Store;

fn channels_of(terms: &Terms) -> Channels
    ensures { (result.colors ≡ (setup_from terms.now).colors) × (result.kinds.now ≡ (setup_from terms.now).kinds) }
{
    Channels {
        colors: terms.colors as usize,
        kinds: terms.kinds(),
    }
}

fn shape_of<P: Picture>(picture: &P) -> Shape
    ensures { (result.channels ≡ (image_of (P.Picture.meaning picture.now)).channels) × (result.region ≡ (image_of (P.Picture.meaning picture.now)).region) }
{
    Shape {
        channels: picture.channels(),
        region: picture.region(),
    }
}

// What the arguments of open decide. They are no struct, since `open` keeps header and records in the frame, and draws with header and picture.
fn open_arguments<P: Picture>(
    terms: &Terms,
    header: Header,
    records: &[FrameRecord],
    picture: &P,
) -> Result<(), Refusal>
    ensures { result_err result ≡ first_broken (open_checks (setup_from terms.now) header records.now (image_of (P.Picture.meaning picture.now))) }
{
    open_refusal(channels_of(terms), header, records, shape_of(picture))
}

// What the arguments of patch decide.
fn patch_arguments<P: Picture>(terms: &Terms, patch: &Patch<P>) -> Result<(), Refusal>
    ensures { result_err result ≡ first_broken (patch_checks (setup_from terms.now) (patch_from P.Picture.meaning patch.now)) }
{
    patch_refusal(
        channels_of(terms),
        patch.rectangle,
        patch.x,
        patch.y,
        patch.records,
        shape_of(patch.sheet),
    )
}

impl<S: Store> Stage<S> {
    // The number of the open frame.
    fn current(&self) -> Option<u32>
        ensures { (s : Setup) (h : Held) → result ≡ open_number (frame_at s h (opened_in self.now.opened)) }
    {
        self.opened.map(|frame| frame.header.number)
    }

    pub(crate) fn size(&self) -> Size
        ensures { result ≡ size_of (S.Store.held self.now.store) }
    {
        Size {
            columns: self.store.columns(),
            rows: self.store.rows(),
            planes: self.store.planes(),
        }
    }

    fn fits(&self, terms: &Terms) -> bool
        ensures { result ≡ fits_store (size_of (S.Store.held self.now.store)) (setup_from terms.now) }
    {
        let region = terms.region;
        fits_store(
            self.size(),
            region.width(),
            region.height(),
            terms.channels(),
        )
    }

    pub(crate) fn admit_open<P: Picture>(
        &self,
        terms: &Terms,
        header: Header,
        records: &[FrameRecord],
        picture: &P,
    ) -> Result<(), Refusal>
        ensures { result_err result ≡ refusal_in S.Store.held self.now terms.now (opening header records.now (image_of (P.Picture.meaning picture.now))) }
    {
        let asked = open_arguments(terms, header, records, picture);
        let state = open_state(self.current(), self.last, header.number, self.fits(terms));
        asked.and(state)
    }

    pub(crate) fn admit_patch<P: Picture>(
        &self,
        terms: &Terms,
        ticket: &Ticket,
        patch: &Patch<P>,
    ) -> Result<(), Refusal>
        ensures { result_err result ≡ refusal_in S.Store.held self.now terms.now (patching (stamp_of ticket.now) (patch_from P.Picture.meaning patch.now)) }
    {
        let asked = patch_arguments(terms, patch);
        asked.and(self.admit_draw(terms, ticket))
    }

    // What patch and blend ask of the ticket and of the store.
    pub(crate) fn admit_draw(&self, terms: &Terms, ticket: &Ticket) -> Result<(), Refusal>
        ensures { result_err result ≡ refusal_in S.Store.held self.now terms.now (blending (stamp_of ticket.now)) }
    {
        drawing_state(terms.mark, self.current(), ticket.stamp, self.fits(terms))
    }

    pub(crate) fn admit_abandon(&self, terms: &Terms, ticket: &Ticket) -> Result<(), Refusal>
        ensures { result_err result ≡ refusal_in S.Store.held self.now terms.now (abandoning (stamp_of ticket.now)) }
    {
        ticket_state(terms.mark, self.current(), ticket.stamp)
    }

    pub(crate) fn admit_clear(&self, terms: &Terms, slot: u32) -> Result<(), Refusal>
        ensures { result_err result ≡ refusal_in S.Store.held self.now terms.now (clearing slot) }
    {
        clear_state(slot, self.current())
    }
}
