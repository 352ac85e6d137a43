use memory::Refusal;

const IN_ORDER: [Refusal; 18] = [
    Refusal::OddAddress,
    Refusal::Absent,
    Refusal::Unsound,
    Refusal::UnknownCode,
    Refusal::BadCondition,
    Refusal::Misaligned,
    Refusal::HalfOfSmallest,
    Refusal::LineBegun,
    Refusal::NoneFinished,
    Refusal::LineOut,
    Refusal::ForeignLease,
    Refusal::ShortSpace,
    Refusal::SceneFull,
    Refusal::SceneEmpty,
    Refusal::BadField,
    Refusal::ProgramTooLong,
    Refusal::BadHeight,
    Refusal::PastTop,
];

#[test]
fn numbers_run_from_1_to_18(rt: HostRuntime) {
    for (refusal, expected) in IN_ORDER.into_iter().zip(1..=18) {
        assert_eq!(rt; refusal.number(), expected);
    }
}
