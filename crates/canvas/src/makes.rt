// How terms and open frames are made, and what they hold.
ghost use Rattle.std.specs.Prelude.{◌≡◌, ◌≤◌, true, false, ◌&&◌, map, length, MatchOption, nat_le, nat_lt};
ghost use Rattle.machine.specs.Checks.{frame_info, channels_of};
ghost use Rattle.machine.specs.Machine.{setup_of};
ghost use Rattle.canvas.specs.Fields.{setup_from, opened_from};

use crate::plans::NO_INFO;
use crate::terms::{OpenFrame, Terms};
use blend::{BlendingInfo, Kind};
use machine::records::kind_of;
use machine::{FrameRecord, Header};
use region::Region;
use std::array;

impl Terms {
    // None with more than three colours or eight extra channels. Kinds are numbers still, as start took
    // them and as the definition of what it took has them.
    pub fn new(mark: u32, region: Region, colors: u32, kinds: &[u8]) -> Option<Terms>
        ensures { MatchOption result ((nat_le colors 3 && nat_le (length kinds.now) 8) ≡ false) (λ t. ((nat_le colors 3 && nat_le (length kinds.now) 8) ≡ true) × (setup_from t ≡ setup_of mark region colors kinds.now)) }
    {
        let extras = kinds.len();
        if colors > 3 || extras > 8 {
            return None;
        }
        Some(Terms {
            mark,
            region,
            colors,
            kinds: array::from_fn(|k| kinds.get(k).map_or(Kind::NoAlpha, |kind| kind_of(*kind))),
            extras: extras as u32,
        })
    }

    // The kinds of the extra channels.
    pub fn kinds(&self) -> &[Kind]
        ensures { result.now ≡ (setup_from self.now).kinds }
    {
        &self.kinds[..self.extras as usize]
    }

    // Colours and extra channels.
    pub fn channels(&self) -> u32
        ensures sum { result ≡ channels_of (setup_from self.now) }
        ensures few { result ≤ 11 }
    {
        self.colors + self.extras
    }
}

impl OpenFrame {
    // None with more than nine records, or a target that is no slot.
    pub fn new(header: Header, records: &[FrameRecord], region: Region) -> Option<OpenFrame>
        ensures { MatchOption result ((nat_le (length records.now) 9 && nat_lt header.target 4) ≡ false) (λ f. ((nat_le (length records.now) 9 && nat_lt header.target 4) ≡ true) × (opened_from f ≡ record { header = header; infos = map frame_info records.now; region = region })) }
    {
        let count = records.len();
        if count > 9 || header.target >= 4 {
            return None;
        }
        Some(OpenFrame {
            header,
            infos: array::from_fn(|k| records
                .get(k)
                .map_or(NO_INFO, |record| BlendingInfo::from(*record))),
            count: count as u32,
            region,
        })
    }

    // The frame's records.
    pub(crate) fn infos(&self) -> &[BlendingInfo]
        ensures { result.now ≡ (opened_from self.now).infos }
    {
        &self.infos[..self.count as usize]
    }
}
