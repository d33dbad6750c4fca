//! Values from the rule in words: the count before an event is that of the newest events in its window.

use ntp_customer::Window;

#[test]
fn first_event_of_a_window_has_none_before_it(rt: HostRuntime) {
    let mut window = Window::new();
    for (at, before) in [(5, 0), (5, 1), (5, 2), (6, 0), (6, 1)] {
        assert_eq!(rt; window.charge(at), before);
    }
}

#[test]
fn window_that_comes_back_is_a_new_count(rt: HostRuntime) {
    let mut window = Window::default();
    for at in [1, 2, 1] {
        assert_eq!(rt; window.charge(at), 0);
    }
}

#[test]
fn count_stays_at_its_most_under_a_flood(rt: HostRuntime) {
    let mut window = Window::new();
    for event in 0..70_000u32 {
        assert_eq!(rt; window.charge(7), event.min(65_536));
    }
    assert_eq!(rt; window.charge(8), 0);
}
