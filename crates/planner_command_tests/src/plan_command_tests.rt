//! `plan` over files in memory, and `check` of what it planned.
use crate::planners::{Planner, answer_by, are_planned};
use crate::{neighbours, retried, stuck};
use command_base::Status;
use example_files::{UpdateTexts, detour, detour_plans, halves, leaves, single, square};

#[test]
fn ordered_plans_are_found_and_accepted(rt: HostRuntime) {
    let rows: [(UpdateTexts<'_>, &[u8], &[u8]); 3] = [
        (
            detour::update_above(),
            detour_plans::ten_rounds(),
            b"accepted: ordered, 10 rounds, 6 classes\n",
        ),
        (
            single::untagged_update(),
            single::narrowing_plan(),
            b"accepted: ordered, 2 rounds, 6 classes\n",
        ),
        (
            single::small_update(),
            single::one_place_plan(),
            b"accepted: ordered, 2 rounds, 6 classes\n",
        ),
    ];
    are_planned(&rt, rt.alloc(), Planner::Plan, &rows);
}

#[test]
fn neighbours_of_equal_walks_have_equal_sets_where_their_duties_are_equal(rt: HostRuntime) {
    let rows: [(UpdateTexts<'_>, &[u8], &[u8]); 2] = [
        (
            halves::update(),
            halves::plan(),
            b"accepted: ordered, 1 rounds, 8 classes\n",
        ),
        (
            neighbours::update(),
            neighbours::plan(),
            b"accepted: ordered, 1 rounds, 8 classes\n",
        ),
    ];
    are_planned(&rt, rt.alloc(), Planner::Plan, &rows);
}

#[test]
fn a_change_that_failed_is_made_once_its_walk_is_safe(rt: HostRuntime) {
    let rows: [(UpdateTexts<'_>, &[u8], &[u8]); 3] = [
        (
            retried::after_the_walk(),
            retried::after_the_walk_plan(),
            b"accepted: ordered, 2 rounds, 6 classes\n",
        ),
        (
            retried::beside_the_walk(),
            retried::beside_the_walk_plan(),
            b"accepted: ordered, 3 rounds, 6 classes\n",
        ),
        (
            retried::other_addresses(),
            retried::other_addresses_plan(),
            b"accepted: ordered, 3 rounds, 10 classes\n",
        ),
    ];
    are_planned(&rt, rt.alloc(), Planner::Plan, &rows);
}

#[test]
fn an_update_of_leaves_is_ordered_with_tags_and_without(rt: HostRuntime) {
    let rows: [(UpdateTexts<'_>, &[u8], &[u8]); 2] = [
        (
            leaves::update(),
            leaves::plan(),
            b"accepted: ordered, 12 rounds, 96 classes\n",
        ),
        (
            leaves::update_without_tags(),
            leaves::plan(),
            b"accepted: ordered, 12 rounds, 96 classes\n",
        ),
    ];
    are_planned(&rt, rt.alloc(), Planner::Plan, &rows);
}

#[test]
fn a_stuck_search_without_tags_says_so(rt: HostRuntime) {
    let answer = answer_by(&rt, rt.alloc(), Planner::Plan, &stuck::search(), 0);
    assert!(rt; answer.is(Status::TooFewTags, stuck::search_tried()));
}

#[test]
fn a_read_that_fails_is_a_read_fault(rt: HostRuntime) {
    // Of each file a select, a take and the end.
    for failing in 1..=13u64 {
        let answer = answer_by(&rt, rt.alloc(), Planner::Plan, &square::update(), failing);
        if failing <= 12 {
            assert!(rt; answer.is(Status::ReadFault, b""), "at {failing}");
        } else {
            assert!(rt; answer.status == Status::Done, "at {failing}");
        }
    }
}
