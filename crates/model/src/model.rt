// Drafts and models, over the bytes of a file that somebody else holds.
ghost use Rattle.std.specs.Prelude.{◌≡◌, true, is_ok};
ghost use Rattle.model_file.specs.Layouts.{layout_of};
ghost use Rattle.model.specs.Accept.{judged};

use model_file::Layout;

// Bytes that nobody has judged.
#[derive(Drop)]
pub struct Draft<'a> {
    bytes: &'a [u8],
}

// The bytes of an accepted model file, and where its sections begin.
#[derive(Drop)]
pub struct Model<'a> {
    bytes: &'a [u8],
    layout: Layout,
    ghost lawful: { is_ok (judged bytes.now) ≡ true },
    ghost located: { layout ≡ layout_of bytes.now },
}

mod counts;
pub(crate) mod judge;
mod nodes;
