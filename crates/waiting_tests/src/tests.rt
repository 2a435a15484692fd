//! Waiting lists of both kinds of records, and the callers that lend an array.
use crate::callers::{end_first, grant};
use crate::records::{SampleJob, SampleServer};
use decline::Decline;
use waiting::WaitingList;

const TOP: u32 = u32::MAX;

const fn server(left: u32, boundary: u32, guest: u32) -> SampleServer {
    SampleServer {
        left,
        boundary,
        guest,
    }
}

const fn job(pending: bool, deadline: u32, task: u32) -> SampleJob {
    SampleJob {
        pending,
        deadline,
        task,
    }
}

fn sample_first_server(servers: &mut [SampleServer]) -> Option<usize> {
    WaitingList::over(servers).earliest()
}

fn sample_first_job(jobs: &mut [SampleJob]) -> Option<usize> {
    WaitingList::over(jobs).earliest()
}

#[test]
fn an_empty_list_has_no_first_record(rt: HostRuntime) {
    assert_eq!(rt; sample_first_server(&mut []), None);
    assert_eq!(rt; sample_first_job(&mut []), None);
}

#[test]
fn one_record_goes_first_if_it_waits(rt: HostRuntime) {
    assert_eq!(rt; sample_first_server(&mut [server(1, 5, 1)]), Some(0));
    assert_eq!(rt; sample_first_server(&mut [server(0, 5, 1)]), None);
    assert_eq!(rt; sample_first_job(&mut [job(true, 10, 1)]), Some(0));
    assert_eq!(rt; sample_first_job(&mut [job(false, 10, 1)]), None);
}

#[test]
fn none_goes_first_where_none_waits(rt: HostRuntime) {
    let mut servers = [server(0, 5, 1), server(0, 10, 2), server(0, 0, 3)];
    assert_eq!(rt; sample_first_server(&mut servers), None);
    let mut jobs = [job(false, 10, 1), job(false, 0, 2), job(false, TOP, 3)];
    assert_eq!(rt; sample_first_job(&mut jobs), None);
}

#[test]
fn the_nearest_first_number_goes_first_wherever_it_stands(rt: HostRuntime) {
    assert_eq!(rt;
        sample_first_server(&mut [server(1, 5, 9), server(1, 6, 1), server(1, 7, 0)]),
        Some(0)
    );
    assert_eq!(rt;
        sample_first_server(&mut [server(1, 6, 9), server(1, 5, 10), server(1, 7, 0)]),
        Some(1)
    );
    assert_eq!(rt;
        sample_first_server(&mut [server(1, 7, 9), server(1, 6, 1), server(1, 5, 11)]),
        Some(2)
    );
}

#[test]
fn the_second_number_counts_between_equal_first_numbers(rt: HostRuntime) {
    assert_eq!(rt;
        sample_first_job(&mut [job(true, 20, 3), job(true, 20, 1), job(true, 20, 2)]),
        Some(1)
    );
    assert_eq!(rt;
        sample_first_job(&mut [job(true, 20, 3), job(true, 21, 1), job(true, 20, 2)]),
        Some(2)
    );
}

#[test]
fn the_first_of_equal_records_goes_first(rt: HostRuntime) {
    assert_eq!(rt; sample_first_job(&mut [job(true, 20, 1); 8]), Some(0));
    assert_eq!(rt;
        sample_first_job(&mut [job(true, 30, 1), job(true, 20, 4), job(true, 20, 4)]),
        Some(1)
    );
}

#[test]
fn a_record_that_does_not_wait_is_passed_over(rt: HostRuntime) {
    assert_eq!(rt;
        sample_first_server(&mut [server(0, 5, 1), server(1, 10, 2), server(3, 10, 3)]),
        Some(1)
    );
    assert_eq!(rt;
        sample_first_job(&mut [job(true, 9, 1), job(false, 9, 1), job(false, 8, 0)]),
        Some(0)
    );
}

#[test]
fn numbers_at_the_top_of_their_width_are_ranked(rt: HostRuntime) {
    assert_eq!(rt; sample_first_server(&mut [server(1, TOP, TOP)]), Some(0));
    assert_eq!(rt;
        sample_first_server(&mut [server(1, TOP, TOP), server(TOP, TOP, TOP - 1)]),
        Some(1)
    );
    assert_eq!(rt;
        sample_first_job(&mut [job(true, TOP, 0), job(true, TOP - 1, TOP)]),
        Some(1)
    );
}

#[test]
fn asking_changes_no_record(rt: HostRuntime) {
    let mut servers = [server(2, 7, 1), server(1, 5, 2)];
    let before = servers;
    assert_eq!(rt; sample_first_server(&mut servers), Some(1));
    assert_eq!(rt; servers, before);
}

#[test]
fn a_record_is_replaced_at_each_position(rt: HostRuntime) {
    let mut jobs = [job(true, 20, 1), job(true, 30, 2), job(true, 40, 3)];
    let mut list = WaitingList::over(&mut jobs);
    assert_eq!(rt; list.replace(0, job(false, 0, 1)), Ok(()));
    assert_eq!(rt; list.earliest(), Some(1));
    assert_eq!(rt; list.replace(2, job(true, 29, 3)), Ok(()));
    assert_eq!(rt; list.earliest(), Some(2));
    assert_eq!(rt;
        jobs,
        [job(false, 0, 1), job(true, 30, 2), job(true, 29, 3)]
    );
}

#[test]
fn a_position_past_the_end_is_refused(rt: HostRuntime) {
    let mut servers = [server(2, 5, 1), server(1, 10, 2)];
    let before = servers;
    for position in [2, 3, usize::MAX] {
        let answer = WaitingList::over(&mut servers).replace(position, server(9, 9, 9));
        assert_eq!(rt;
            answer,
            Err(Decline::NotFound {
                guest: 0,
                place: position as u64
            })
        );
    }
    assert_eq!(rt; servers, before);
    let mut none: [SampleServer; 0] = [];
    assert_eq!(rt;
        WaitingList::over(&mut none).replace(0, server(9, 9, 9)),
        Err(Decline::NotFound { guest: 0, place: 0 })
    );
}

#[test]
fn a_caller_finds_its_own_array_changed(rt: HostRuntime) {
    let mut servers = [
        server(1, 5, 1),
        server(2, 10, 2),
        server(0, 5, 3),
        server(1, 10, 4),
    ];
    assert_eq!(rt; grant(&mut servers), Some(0));
    assert_eq!(rt; grant(&mut servers), Some(1));
    assert_eq!(rt; grant(&mut servers), Some(1));
    assert_eq!(rt; grant(&mut servers), Some(3));
    assert_eq!(rt; grant(&mut servers), None);
    assert_eq!(rt;
        servers,
        [
            server(0, 5, 1),
            server(0, 10, 2),
            server(0, 5, 3),
            server(0, 10, 4)
        ]
    );
}

#[test]
fn a_caller_knows_an_array_of_its_own(rt: HostRuntime) {
    let jobs = [job(true, 30, 1), job(false, 10, 2), job(true, 20, 3)];
    let after_one = [job(true, 30, 1), job(false, 10, 2), job(false, 20, 3)];
    let after_two = [job(false, 30, 1), job(false, 10, 2), job(false, 20, 3)];
    assert_eq!(rt; end_first(jobs), after_one);
    assert_eq!(rt; end_first(after_one), after_two);
    assert_eq!(rt; end_first(after_two), after_two);
}
