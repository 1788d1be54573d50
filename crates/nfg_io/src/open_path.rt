//! Which path is open, for contracts alone.
ghost use Rattle.std.specs.Prelude.{◌≡◌, ℕ, List, Option, Some, None};
ghost use Rattle.std.specs.Coded.{coded_list, coded_option, coded_ℕ};
ghost use base.Fml.{ftrue};

use std::marker::{Model, PhantomData};

/// The open path, if there is one. It takes no bytes, and nothing that runs can read it.
#[derive(Drop)]
pub struct OpenPath {
    marker: PhantomData<()>,
    pub ghost path: { Option (List ℕ) } by { coded_option (coded_list coded_ℕ) },
}

impl Model for OpenPath {
    ghost also_owns = { λ _. ftrue };
}

impl OpenPath {
    pub fn none() -> OpenPath
        ensures { result.path ≡ None }
    {
        OpenPath {
            marker: PhantomData,
        }
    }

    pub fn of(path: &str) -> OpenPath
        ensures { result.path ≡ Some path.now }
    {
        let _ = path;
        OpenPath {
            marker: PhantomData,
        }
    }
}
