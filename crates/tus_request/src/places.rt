//! The resources that paths name.
ghost use Rattle.std.specs.Prelude.{◌≡◌, IfOk};
ghost use Rattle.tus_request.specs.Places.{resource_of, is_files, upload_number};
ghost use Rattle.tus_request.specs.RouteTable.{route_table};

use common::number;
use matchit::{InsertError, Router};
use std::alloc::{AllocError, Global};

/// A resource.
#[derive(Clone, Copy, Drop)]
pub(crate) enum Place {
    /// `/files`: all uploads.
    Files,
    /// `/files/N`: the upload of this number.
    Upload(u64),
}

/// The route that a path matches.
#[derive(Clone, Copy, Drop)]
enum Kind {
    Files,
    Upload,
}

/// The number of an upload in a path. It has no leading zero, so that each upload has one path.
fn upload(text: &[u8]) -> Option<u64>
    ensures { result ≡ upload_number text.now }
{
    if text.first() == Some(&b'0') {
        return None;
    }
    number(text)
}

/// The two routes of the server. Made once, they serve every head.
#[derive(Drop)]
pub struct Routes {
    router: Router<Kind>,
    ghost both: { router ≡ route_table },
}

impl Routes {
    /// Makes the routes. To look a path up needs no memory.
    ///
    /// # Errors
    ///
    /// `AllocError`.
    pub fn new(alloc: Global) -> Result<Self, AllocError> {
        match routed(alloc) {
            Ok(router) => Ok(Routes { router }),
            // The two routes are right, so that only memory can be short.
            Err(_) => Err(AllocError),
        }
    }

    /// The resource of the path, if it has one.
    pub(crate) fn place_of(&self, path: &str) -> Option<Place>
        ensures { result ≡ resource_of path.now }
    {
        let Ok(found) = self.router.at(path) else {
            return None;
        };
        match found.value {
            Kind::Files => Some(Place::Files),
            Kind::Upload => match found.params.get("number") {
                Some(part) => upload(part.as_bytes()).map(Place::Upload),
                None => None,
            },
        }
    }
}

/// A router with the two routes.
fn routed(alloc: Global) -> Result<Router<Kind>, InsertError>
    ensures { IfOk result (λ router. router ≡ route_table) }
{
    let mut router = Router::new(alloc);
    router.insert("/files", Kind::Files)?;
    router.insert("/files/{number}", Kind::Upload)?;
    Ok(router)
}

/// The resource of the path, if it has one. It is compared with the two routes, so that no router is needed.
pub(crate) fn named_by(path: &str) -> Option<Place>
    ensures { result ≡ resource_of path.now }
{
    if path == "/files" {
        return Some(Place::Files);
    }
    let part = path.as_bytes().strip_prefix(b"/files/")?;
    upload(part).map(Place::Upload)
}

/// Whether the resource is `/files`.
pub(crate) fn on_files(place: Option<Place>) -> bool
    ensures { result ≡ is_files place }
{
    matches!(place, Some(Place::Files))
}
