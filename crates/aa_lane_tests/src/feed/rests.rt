//! A worker that rests while another serves.

use aa_pool::Bell;

/// A worker that rests goes to work where all others count as asleep and none of them answers anything: one of those may be held up in a
/// request that it found when it looked the last time.
#[test]
fn who_rests_goes_to_work_where_all_others_count_as_asleep(rt: HostRuntime) {
    for _ in 0..10u32 {
        let bell = Bell::new();
        bell.begins(2);
        let mut first = bell.comes(&rt);
        bell.looked(&rt, &mut first);
        bell.leaves(bell.comes(&rt));
    }
}
