// What a call returns, and what goes behind a pointer.
ghost use Rattle.std.specs.Prelude.{◌≡◌, ◌+◌, ◌*◌, ◌%◌};
ghost use Rattle.lekhnaom.specs.Status.{status, behind};

use slash::Stop;

// 2^56: so many places can be told.
const PLACES: u64 = 72057594037927936;

pub(crate) fn stop_status(s: Stop) -> u64
    ensures { result ≡ s.place % 72057594037927936 * 256 + s.number % 256 }
{
    s.place % PLACES * 256 + s.number % 256
}

#[tactic(auto, unfolding(crate::specs::Status::status))]
pub(crate) fn status<T: Copy>(r: Result<T, Stop>) -> u64
    ensures { result ≡ status r }
{
    match r {
        Ok(_) => 0,
        Err(s) => stop_status(s),
    }
}

// The result of a call goes behind the pointer.
#[tactic(auto, unfolding(crate::specs::Status::status, crate::specs::Status::behind))]
pub(crate) fn store(r: Result<u64, Stop>, to: &mut u64) -> u64
    ensures returned { result ≡ status r }
    ensures stored { to.new ≡ behind r to.old }
{
    match r {
        Ok(n) => {
            *to = n;
            0
        }
        Err(s) => stop_status(s),
    }
}
