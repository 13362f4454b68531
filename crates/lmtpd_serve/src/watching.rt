//! Things with observers beside them.

ghost use Rattle.std.specs.Prelude.{◌≡◌, map, IfOk, vec_len};

use lmtp_house::Watched;
use std::alloc::{AllocError, Global};

/// Each of these things with the observer that stands at its place.
pub(crate) fn watched<T: Drop, O: Drop>(
    alloc: Global,
    things: Vec<T>,
    observers: Vec<O>,
) -> Result<Vec<Watched<T, O>>, AllocError>
    requires { vec_len observers ≡ vec_len things }
    ensures things { IfOk result (λ made. map (λ w. w.inner) made.items ≡ things.items) }
    ensures observers { IfOk result (λ made. map (λ w. w.observer) made.items ≡ observers.items) }
{
    let mut made = Vec::with_capacity(alloc, things.len())?;
    let mut observers = observers.into_iter();
    for inner in things {
        let Some(observer) = observers.next() else {
            unreachable!()
        };
        made.push(Watched { inner, observer })?;
    }
    Ok(made)
}
