// The alarms of the four fans in a signed byte each, so that a state is small.
ghost use Rattle.std.specs.Prelude.{◌≡◌};
ghost use Rattle.relief_fans.specs.Alarms.{fits_byte, alarms_fit, alarm_byte, alarm_bytes};

// A signed byte holds this alarm.
#[tactic(auto, using(crate::proofs::AlarmBytes::taken))]
pub fn fits_byte(alarm: i64) -> bool
    ensures { result ≡ fits_byte alarm }
{
    i8::try_from(alarm).is_ok()
}

// A signed byte holds each of the four alarms.
#[tactic(auto, unfolding(crate::specs::Alarms::alarms_fit, crate::specs::Flags::all_of))]
pub fn alarms_fit(alarm: [i64; 4]) -> bool
    ensures { result ≡ alarms_fit alarm }
{
    alarm.iter().all(|&alarm| fits_byte(alarm))
}

// The alarm in a signed byte; 0 for one that does not fit, which no accepted row has.
#[tactic(auto, using(crate::proofs::AlarmBytes::kept, crate::proofs::AlarmBytes::byte_in_range))]
pub fn alarm_byte(alarm: i64) -> i8
    ensures { result ≡ alarm_byte alarm }
{
    i8::try_from(alarm).unwrap_or(0)
}

// Each of the four alarms in a signed byte.
#[tactic(auto, unfolding(crate::specs::Alarms::alarm_bytes))]
pub fn alarm_bytes(alarm: [i64; 4]) -> [i8; 4]
    ensures { result ≡ alarm_bytes alarm }
{
    alarm.map(alarm_byte)
}
