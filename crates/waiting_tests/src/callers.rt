//! Callers that lend an array, and know it afterwards.
ghost use Rattle.std.specs.Prelude.{◌≡◌};
ghost use Rattle.waiting_tests.specs.Kinds.{sample_first_server, after_grant, after_end};

use crate::records::{SampleJob, SampleServer};
use waiting::WaitingList;

/// Grants a slot to the server that goes first, if any, and answers its position.
pub fn grant(servers: &mut [SampleServer; 4]) -> Option<usize>
    ensures answer { result ≡ sample_first_server servers.old }
    ensures after { servers.new ≡ after_grant servers.old }
{
    let first = WaitingList::over(servers).earliest();
    if let Some(position) = first {
        let server = servers[position];
        WaitingList::over(servers)
            .replace(
                position,
                SampleServer {
                    left: server.left - 1,
                    ..server
                },
            )
            .unwrap();
    }
    first
}

/// The jobs after the one that goes first, if any, has ended. The array that it lends is its own.
pub fn end_first(jobs: [SampleJob; 3]) -> [SampleJob; 3]
    ensures { result ≡ after_end jobs }
{
    let mut after = jobs;
    if let Some(position) = WaitingList::over(&mut after).earliest() {
        let ended = SampleJob {
            pending: false,
            ..after[position]
        };
        WaitingList::over(&mut after)
            .replace(position, ended)
            .unwrap();
    }
    after
}
