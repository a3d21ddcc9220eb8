// The numbers of refusals.
use crate::check::check_eq;
use protocol::Refusal;

#[test]
fn every_refusal_has_its_number(rt: HostRuntime) {
    static NUMBERS: [(Refusal, u8); 14] = [
        (Refusal::TooManyOpened, 1),
        (Refusal::NoFreeSlot, 2),
        (Refusal::NoSuchTransaction, 3),
        (Refusal::Absent, 4),
        (Refusal::OtherSubject, 5),
        (Refusal::NotPermitted, 6),
        (Refusal::TooManyChanges, 7),
        (Refusal::NotARight, 8),
        (Refusal::ExceedsBuffer, 12),
        (Refusal::TooMany, 14),
        (Refusal::BadPolicies, 15),
        (Refusal::BadRights, 16),
        (Refusal::BadThreshold, 17),
        (Refusal::BadLog, 18),
    ];
    for (refusal, number) in &NUMBERS {
        check_eq(&rt, (*refusal, refusal.number()), (*refusal, *number));
    }
}
