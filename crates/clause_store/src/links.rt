// Watch lists.
ghost use Rattle.std.specs.Prelude.{◌≡◌, ◌<◌, ◌≤◌, ◌∷◌, ◌++◌, ◌+◌, [], IfOk, OnErr, OnOk, length, replicate, slice_index, slice_set};
ghost use Rattle.clause_store.specs.Linked.{IsLaid, end_of_list};

use dg_base::OutOfMemory;
use std::alloc::Global;
use std::marker::Model;

/// The number that ends a list.
pub const END: u32 = 4294967295;

/// Lists of links, one list for each owner. The links are numbered; behind each stands the next one
/// of its list, so that a link goes from one list to another without memory.
#[derive(Debug, Drop)]
pub struct Links {
    next: Vec<u32>,
    heads: Vec<u32>,
    owner_of: Vec<u32>,
}

impl Model for Links {
    ghost use Rattle.clause_store.specs.Linked.{LinksView};

    ghost Value = { LinksView };

    ghost view = { λ l. record { next = l.next.items; heads = l.heads.items; owner_of = l.owner_of.items } };
}

impl Links {
    /// How many links there are.
    pub fn len(&self) -> usize
        ensures { result ≡ length self.now.next }
    {
        self.next.len()
    }

    /// The owner of a link.
    pub fn owner(&self, link: u32) -> u32
        requires { link < length self.now.owner_of }
        ensures { result ≡ slice_index self.now.owner_of link }
    {
        self.owner_of[link as usize]
    }

    /// Takes an owner's list out: answers its first link.
    pub fn take_out(&mut self, owner: u32) -> u32
        requires { owner < length self.old.heads }
        ensures first { result ≡ slice_index self.old.heads owner }
        ensures next { self.new.next ≡ self.old.next }
        ensures heads { self.new.heads ≡ slice_set self.old.heads owner end_of_list }
        ensures owners { self.new.owner_of ≡ self.old.owner_of }
    {
        let first = self.heads[owner as usize];
        self.heads[owner as usize] = END;
        first
    }

    /// Puts a link at the head of an owner's list, and answers the link that came behind it before.
    pub fn put_back(&mut self, link: u32, owner: u32) -> u32
        requires link { link < length self.old.next }
        requires owner { owner < length self.old.heads }
        requires long { length self.old.owner_of ≡ length self.old.next }
        ensures after { result ≡ slice_index self.old.next link }
        ensures next { self.new.next ≡ slice_set self.old.next link (slice_index self.old.heads owner) }
        ensures heads { self.new.heads ≡ slice_set self.old.heads owner link }
        ensures owners { self.new.owner_of ≡ slice_set self.old.owner_of link owner }
    {
        let after = self.next[link as usize];
        self.next[link as usize] = self.heads[owner as usize];
        self.heads[owner as usize] = link;
        self.owner_of[link as usize] = owner;
        after
    }

    // Two more links, chained, that are in no list yet.
    fn grow(&mut self) -> Result<(), OutOfMemory>
        requires { length self.old.next + 2 ≤ end_of_list }
        ensures next { OnOk result (self.new.next ≡ self.old.next ++ (length self.old.next + 1) ∷ end_of_list ∷ []) }
        ensures heads { OnOk result (self.new.heads ≡ self.old.heads) }
        ensures owners { OnOk result (self.new.owner_of ≡ self.old.owner_of ++ 0 ∷ 0 ∷ []) }
        ensures err { OnErr result (self.new ≡ self.old) }
    {
        let second = self.next.len() as u32 + 1;
        self.next.reserve(2)?;
        self.owner_of.extend_from_slice(&[0, 0])?;
        self.next.push(second)?;
        self.next.push(END)?;
        Ok(())
    }

    /// Puts two links behind the others, each at the head of its owner's list. It is refused for
    /// want of memory, and where the links would be more than 4294967295.
    pub fn lay(&mut self, a: u32, b: u32) -> Result<(), OutOfMemory>
        requires a_within { a < length self.old.heads }
        requires b_within { b < length self.old.heads }
        requires long { length self.old.owner_of ≡ length self.old.next }
        ensures laid { OnOk result (IsLaid self.old a b self.new) }
        ensures err { OnErr result (self.new ≡ self.old) }
    {
        let count = self.len();
        if count > END as usize - 2 {
            return Err(OutOfMemory);
        }
        self.grow()?;
        let first = count as u32;
        self.put_back(first, a);
        self.put_back(first + 1, b);
        Ok(())
    }

    /// So many owners with empty lists, and no links.
    pub fn new(alloc: Global, owners: usize) -> Result<Links, OutOfMemory>
        ensures next { IfOk result (λ links. links.next ≡ []) }
        ensures heads { IfOk result (λ links. links.heads ≡ replicate owners end_of_list) }
        ensures owners { IfOk result (λ links. links.owner_of ≡ []) }
    {
        let heads = vec![in alloc; END; owners]?;
        Ok(Links {
            next: Vec::new(alloc),
            heads,
            owner_of: Vec::new(alloc),
        })
    }
}
