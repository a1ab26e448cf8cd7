//! With the setting `pending`, an exchange in flight lowers its station's standing by its computed airtime.

ghost use Rattle.std.specs.Prelude.{◌≡◌, ◌<◌, ◌^◌, ◌-◌, true, if◌then◌else◌, negsuc, pos, ◌+ℤ◌, ◌-ℤ◌, ◌≤ℤ◌};
ghost use Rattle.wf_sched.specs.ClassRotas.{deficit};
ghost use Rattle.wf_sched_refines.specs.Standing.{with_deficit_charged, with_paid_back};

use wf_frame::Class;
use wf_sched::Sched;

// Charges an exchange that opens to its station, if the setting says so.
pub(crate) fn charge_opened(sched: &mut Sched, station: u16, class: Class, air: u32, is_on: bool)
    requires known { station < sched.old.stations }
    requires low { negsuc (2 ^ 62 - 1) ≤ℤ (deficit sched.old class station -ℤ pos air) }
    ensures { sched.new ≡ (if is_on then with_deficit_charged sched.old station class air else sched.old) }
{
    if is_on {
        sched.charge(station, class, air);
    }
}

// Pays the computed airtime of an exchange that ends back to its station, if the setting says so.
pub(crate) fn pay_back_ended(sched: &mut Sched, station: u16, class: Class, air: u32, is_on: bool)
    requires known { station < sched.old.stations }
    requires high { is_on ≡ true → (deficit sched.old class station +ℤ pos air) ≤ℤ pos (2 ^ 32 - 1) }
    ensures { sched.new ≡ (if is_on then with_paid_back sched.old station class air else sched.old) }
{
    if is_on {
        sched.pay_back(station, class, air);
    }
}
