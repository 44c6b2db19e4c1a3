//! Lists that are read from the front.

ghost use Rattle.std.specs.Prelude.{◌≡◌, map};
ghost use Rattle.c_grammar.specs.Rules.{Listed, Rule, Result as Gives};
ghost use Rattle.c_grammar.specs.Grammar.{member, as_member};
ghost use Rattle.c_grammar.specs.Derivations.{Front};
ghost use Rattle.c_grammar.specs.Reads.{Reads};
ghost use Rattle.c_grammar.specs.Lists.{following_of, ReadsMembers, Shortens};

use c_grammar::{Following, Found, Read, further, goes_on};
use c_tokens::Token;
use sqlite_items::Items;
use std::alloc::Global;

/// A member at least, and what follows it. The function value reads a member of this kind, of at
/// most `room` levels.
pub fn read_list<'a, K: Copy, T: Drop, F: Fn(Global, &'a [u8], &'a [Token], K, u32) -> Read<'a, T>>(
    alloc: Global,
    text: &'a [u8],
    following: Following,
    tokens: &'a [Token],
    kind: K,
    room: u32,
    read_member: F,
) -> Read<'a, Items<T>>
    requires callable { (ts : _) → F.pre read_member alloc text ts kind room }
    requires shortens { Shortens (λ text ts. F.post read_member alloc text ts kind room) }
    ensures { (l : Listed) (view : T → Gives (member l)) → following_of l ≡ following
        → ReadsMembers l view room (λ text ts. F.post read_member alloc text ts kind room)
        → Reads (map (λ x. as_member l (view x))) (Front text.now (Rule.list l) tokens.now) room
        result }
{
    let mut members = Items::new(alloc);
    let mut levels = 0;
    let mut rest = tokens;
    loop {
        let next = read_member(alloc, text, rest, kind, room)?;
        levels = levels.max(next.levels);
        members.push(next.tree)?;
        if !goes_on(following, next.rest) {
            return Ok(Found {
                tree: members,
                levels,
                rest: next.rest,
            });
        }
        rest = further(following, next.rest);
    }
}

/// What follows a member, or all members where none stands before them: none, or further ones.
/// The function value reads a member of this kind, of at most `room` levels.
pub fn read_more<'a, K: Copy, T: Drop, F: Fn(Global, &'a [u8], &'a [Token], K, u32) -> Read<'a, T>>(
    alloc: Global,
    text: &'a [u8],
    following: Following,
    tokens: &'a [Token],
    kind: K,
    room: u32,
    read_member: F,
) -> Read<'a, Items<T>>
    requires callable { (ts : _) → F.pre read_member alloc text ts kind room }
    requires shortens { Shortens (λ text ts. F.post read_member alloc text ts kind room) }
    ensures { (l : Listed) (view : T → Gives (member l)) → following_of l ≡ following
        → ReadsMembers l view room (λ text ts. F.post read_member alloc text ts kind room)
        → Reads (map (λ x. as_member l (view x))) (Front text.now (Rule.more l) tokens.now) room
        result }
{
    if !goes_on(following, tokens) {
        return Ok(Found {
            tree: Items::new(alloc),
            levels: 0,
            rest: tokens,
        });
    }
    let behind = further(following, tokens);
    read_list(alloc, text, following, behind, kind, room, read_member)
}
