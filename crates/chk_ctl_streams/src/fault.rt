//! Refusals of the site as refusals of a look.

ghost use Rattle.std.specs.Prelude.{◌≡◌};
ghost use Rattle.chk_ctl_streams.specs.Listing.{look_result};

use chk_ctl_cat::LookFault;
use chk_site::OutsideFault;

/// What came of calls as what comes of a look.
pub(crate) fn look_result(given: Result<(), OutsideFault>) -> Result<(), LookFault>
    ensures { result ≡ look_result given }
{
    match given {
        Ok(()) => Ok(()),
        Err(fault) => Err(LookFault::from(fault)),
    }
}
