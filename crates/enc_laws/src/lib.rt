//! Laws of the encodings: UTF-8 by maximal subparts, well-formed texts, transcoding piece by piece, and the equations
//! of decoding and encoding.
#![tactic(auto)]

mod equations;
mod index_files;
mod laws;
mod transcoding;

pub use equations::{decodes_by_answers, encodes_by_answers};
pub use index_files::files_are_maps;
pub use laws::{
    cut_by_subparts, gives_scalars, longest_subparts, reads_back, utf8_at_every_moment,
    well_formed_at_every_moment, writes_well_formed,
};
pub use transcoding::{fed_on_from_state_bytes, text_ends};
