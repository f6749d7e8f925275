// The scene call.
ghost use Rattle.std.specs.Prelude.{◌≡◌, [], ◌∷◌};
ghost use Rattle.bits.specs.Verdict.{mapped};
ghost use Rattle.scene.specs.Scene.{call, scene_answer, scene_leaves};
ghost use Rattle.capi.specs.Answer.{code_of, words_after};
ghost use Rattle.capi.specs.Scene.{scene_words};

use super::hand_out;
use super::words::fill_reply;

pub fn capi_scene(
    kind: u32,
    payload: &[u8],
    rings: u32,
    sectors: u32,
    cells: u32,
    radius: f32,
    face_width: u32,
    numbers: &mut [u16],
    floats: &mut [u32],
    records: &mut [u32],
    words: &mut [u64],
) -> i64
    ensures answer { result ≡ code_of (mapped scene_words
        (scene_answer (call kind payload rings sectors cells radius face_width numbers floats records))) }
    ensures words { words.new ≡ words_after words.old (mapped scene_words
        (scene_answer (call kind payload rings sectors cells radius face_width numbers floats records))) }
    ensures buffers { numbers.new ∷ floats.new ∷ records.new ∷ []
        ≡ scene_leaves (call kind payload rings sectors cells radius face_width numbers floats records) }
{
    hand_out(
        words,
        fill_reply(scene::scene(
            kind, payload, rings, sectors, cells, radius, face_width, numbers, floats, records,
        )),
    )
}
