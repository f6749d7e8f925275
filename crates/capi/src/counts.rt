// The counts of vertices and indices.
ghost use Rattle.std.specs.Prelude.{◌≡◌};
ghost use Rattle.bits.specs.Verdict.{mapped};
ghost use Rattle.payload.specs.Count.{vertex_count, index_count, cubemap_vertex_count};
ghost use Rattle.payload.specs.Count.{cubemap_index_count};
ghost use Rattle.capi.specs.Answer.{code_of, words_after, one};

use super::hand_out;
use super::words::reply;

pub fn capi_vertex_count(rings: u32, sectors: u32, words: &mut [u64]) -> i64
    ensures answer { result ≡ code_of (mapped one (vertex_count rings sectors)) }
    ensures words { words.new
        ≡ words_after words.old (mapped one (vertex_count rings sectors)) }
{
    hand_out(words, reply(payload::vertex_count(rings, sectors)))
}

pub fn capi_index_count(rings: u32, sectors: u32, words: &mut [u64]) -> i64
    ensures answer { result ≡ code_of (mapped one (index_count rings sectors)) }
    ensures words { words.new
        ≡ words_after words.old (mapped one (index_count rings sectors)) }
{
    hand_out(words, reply(payload::index_count(rings, sectors)))
}

pub fn capi_cubemap_vertex_count(cells: u32, words: &mut [u64]) -> i64
    ensures answer { result ≡ code_of (mapped one (cubemap_vertex_count cells)) }
    ensures words { words.new
        ≡ words_after words.old (mapped one (cubemap_vertex_count cells)) }
{
    hand_out(words, reply(payload::cubemap_vertex_count(cells)))
}

pub fn capi_cubemap_index_count(cells: u32, words: &mut [u64]) -> i64
    ensures answer { result ≡ code_of (mapped one (cubemap_index_count cells)) }
    ensures words { words.new
        ≡ words_after words.old (mapped one (cubemap_index_count cells)) }
{
    hand_out(words, reply(payload::cubemap_index_count(cells)))
}
