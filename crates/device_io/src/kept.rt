//! Files that are kept open, each for an endpoint.

ghost use Rattle.std.specs.Prelude.{◌≡◌, [], ◌∷◌, ◌++◌, IfSome, IfNone, vec_len};
ghost use Rattle.std.specs.List.{position};
ghost use Rattle.device_io.specs.KeptFiles.{is_kept_for};

use ca_base::EndpointNo;
use std::fs::OpenOptions;
use std::rt::Files;

/// A file that was opened for an endpoint, with the name and the options by which it was.
#[derive(Drop)]
pub struct KeptFile<F: Drop> {
    pub endpoint: EndpointNo,
    pub name: String,
    pub options: OpenOptions,
    pub file: F,
}

/// Opens a file for an endpoint, and remembers how. `None` if it can't be opened.
pub fn open_for<R: Files>(
    rt: &R,
    endpoint: EndpointNo,
    name: String,
    options: OpenOptions,
) -> Option<KeptFile<R::File>>
    ensures { IfSome result (λ kept.
        kept ≡ record { endpoint = endpoint; name = name; options = options; file = kept.file }) }
{
    let file = options.open(rt, name.as_str()).ok()?;
    Some(KeptFile {
        endpoint,
        name,
        options,
        file,
    })
}

/// The place of the first file that is kept for an endpoint.
pub fn place_of<F: Drop>(files: &[KeptFile<F>], e: EndpointNo) -> Option<usize>
    ensures { result ≡ position (is_kept_for e.0) files.now }
{
    files.iter().position(|kept| e.0 == kept.endpoint.0)
}

/// Keeps a file, behind the others, and answers its place. `None`, if memory runs out, changes nothing.
pub fn keep_open<F: Drop>(files: &mut Vec<KeptFile<F>>, kept: KeptFile<F>) -> Option<usize>
    ensures place { IfSome result (λ i. i ≡ vec_len files.old) }
    ensures last { IfSome result (λ i. files.new.items ≡ files.old.items ++ kept ∷ []) }
    ensures none { IfNone result (files.new.items ≡ files.old.items) }
{
    let place = files.len();
    files.push(kept).ok()?;
    Some(place)
}
