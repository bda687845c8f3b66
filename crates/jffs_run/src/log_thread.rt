//! The log thread: it serves until an Unmount is answered.

ghost use Rattle.std.specs.Prelude.{◌≡◌, IfOk, IfErr};
ghost use Rattle.jffs_serve.specs.Showing.{CanServe};
ghost use Rattle.jffs_serve.specs.Serving.{HasServed};

use crate::promise::{LogEnd, LogHandle, LogSide, Serves};
use crate::signals::Signals;
use jffs_flash::Flash;
use jffs_line::Taker;
use jffs_serve::{Ended, Served, serve};
use std::snapshot::Snapshot;
use std::sync::Wait;
use std::thread::Scope;

/// How often serving goes on after allocation failed.
const RETRIES_MAX: u32 = 100;

/// Serves until an Unmount is answered, again after memory was refused, and then tells all others
/// that it ended.
fn run_log<R: Wait, F: Flash, T: Taker, W: Wait + Drop>(
    rt: &R,
    side: LogSide<F, T, W>,
    ended: &Ended,
) -> LogEnd<F, T, W>
    requires ready { CanServe side.session side.publisher }
    ensures ends { T.ends result.side.taker ≡ T.ends side.taker }
    ensures served { HasServed side.session side.publisher (T.taken side.taker) result.side.session
        result.side.publisher (T.taken result.side.taker) result.served }
{
    let LogSide {
        mut session,
        mut taker,
        mut publisher,
        mut jobs,
    } = side;
    let mut served = serve(rt, &mut session, &mut taker, &mut publisher, &mut jobs);
    for _ in 0..RETRIES_MAX {
        if served != Served::Memory {
            break;
        }
        served = serve(rt, &mut session, &mut taker, &mut publisher, &mut jobs);
    }
    ended.tell();
    LogEnd {
        side: LogSide {
            session,
            taker,
            publisher,
            jobs,
        },
        served,
    }
}

/// The end of a log thread that served nothing, as where the first allocation failed.
pub(crate) fn unserved<F: Flash, T: Taker, W: Wait + Drop>(
    side: LogSide<F, T, W>,
) -> LogEnd<F, T, W>
    ensures ends { T.ends result.side.taker ≡ T.ends side.taker }
    ensures served { HasServed side.session side.publisher (T.taken side.taker) result.side.session
        result.side.publisher (T.taken result.side.taker) result.served }
{
    LogEnd {
        side,
        served: Served::Memory,
    }
}

// The log thread. Where a thread could not be made, it gives its side back as it is.
fn begin_log<R: Wait, F: Flash, T: Taker, W: Wait + Drop>(
    rt: &R,
    side: LogSide<F, T, W>,
    signals: &Signals,
) -> LogEnd<F, T, W>
    requires ready { CanServe side.session side.publisher }
    ensures ends { T.ends result.side.taker ≡ T.ends side.taker }
    ensures served { HasServed side.session side.publisher (T.taken side.taker) result.side.session
        result.side.publisher (T.taken result.side.taker) result.served }
{
    if signals.is_refused() {
        signals.ended.tell();
        return unserved(side);
    }
    run_log(rt, side, &signals.ended)
}

/// Starts the log thread. Where no thread can be made, all that it was given comes back.
pub(crate) fn start_log<
    's,
    E,
    R: Wait + Sync,
    F: Flash + Send + Drop + 's,
    T: Taker + Send + 's,
    W: Wait + Drop + Send + 's,
>(
    rt: &'s R,
    scope: &'s Scope<'s, E>,
    side: LogSide<F, T, W>,
    signals: &'s Signals,
) -> Result<LogHandle<F, T, W>, LogEnd<F, T, W>>
    requires ready { CanServe side.session side.publisher }
    ensures promise { IfOk result (λ handle. handle.promise.side.value ≡ side) }
    ensures ends { IfErr result (λ end. T.ends end.side.taker ≡ T.ends side.taker) }
    ensures served { IfErr result
        (λ end. HasServed side.session side.publisher (T.taken side.taker) end.side.session
        end.side.publisher (T.taken end.side.taker) end.served) }
{
    let promise = Serves {
        side: Snapshot::of(&side),
    };
    let started = scope.spawn_with(
        promise,
        move || -> LogEnd<F, T, W>
            requires { CanServe side.session side.publisher }
            ensures { (T.ends result.side.taker ≡ T.ends side.taker)
                × HasServed side.session side.publisher (T.taken side.taker) result.side.session
                result.side.publisher (T.taken result.side.taker) result.served }
        { begin_log(rt, side, signals) },
    );
    match started {
        Ok(handle) => Ok(handle),
        Err(refused) => {
            signals.refuse();
            Err((refused.value)())
        }
    }
}
