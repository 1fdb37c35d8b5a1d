//! Tests of a clock in memory.
use crate::asserting::alike;
use driver_link::Clock;
use memory_links::MemClock;

#[test]
fn readings_and_sleeps(rt: HostRuntime) {
    let mut clock = MemClock::new(100, 5);
    let first = clock.now_ms();
    clock.sleep_ms(20);
    let second = clock.now_ms();
    clock.sleep_ms(u64::MAX);
    let readings = [first, second, clock.now_ms(), clock.now_ms()];
    alike(
        &rt,
        readings,
        [100, 125, u64::MAX, u64::MAX],
        "readings behind sleeps",
    );
}
