// What start looks at.
ghost use Rattle.std.specs.Prelude.{◌≡◌};
ghost use Rattle.std.specs.Result.{result_err};
ghost use Rattle.machine.specs.Machine.{start_refusal};

use machine::Size;
use machine::records::any_unknown;
use refusal::Refusal;
use region::Region;

// Kinds are numbers here, since this is what looks at them.
pub fn start_refusal(size: Size, region: Region, colors: u32, kinds: &[u8]) -> Result<(), Refusal>
    ensures { result_err result ≡ start_refusal size region colors kinds.now }
{
    let extras = kinds.len();
    let known = extras <= 8 && !any_unknown(kinds);
    Refusal::RegionLimits.unless(region.is_allowed())?;
    Refusal::ChannelKinds.unless((colors == 1 || colors == 3) && known)?;
    let fits = size.columns == region.width() as usize && size.rows == region.height() as usize;
    Refusal::StoreSize.unless(fits && size.planes >= 5 * (colors as usize + extras))
}
