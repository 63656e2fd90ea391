//! A pool of trees.
ghost use Rattle.std.specs.Prelude.{◌≡◌, ◌≢◌, ◌<◌, ◌≤◌, ℕ, [], length, List, Some, IsSome, IfSome, IfOk, OnOk, OnErr, option_map, option_and_then};
ghost use Rattle.node_pool.specs.Slots.{value_at, IsLive, spare_of};
ghost use Rattle.rtx_tree.specs.Tree.{kids_of, part_at, replaced_at};
ghost use Rattle.rtx_tree.specs.declared.tree.Rtx.{Rtx};
ghost use Rattle.rtx_pool.specs.Trees.{with_head, with_kids_turned, part_of, IsChanged, IsPlaced, IsReleased, IsJoined};
ghost use Rattle.rtx_pool.specs.Heads.{shown};

use crate::change::{hoist, set_head, swap};
use crate::head::{RtxHead, head_in};
use node_pool::{Id, Pool};
use plain_data::Memory;
use rtx_tree::{Code, Mode, Rtx};
use std::alloc::Global;

/// A tree's number in a pool.
pub type Root = Id<Rtx>;

/// Trees under roots.
#[derive(Drop)]
pub struct RtxPool {
    trees: Pool<Rtx>,
}

impl RtxPool {
    /// A pool of no trees. It takes no memory.
    pub fn new(alloc: Global) -> RtxPool
        ensures { result.trees ≡ [] }
    {
        RtxPool {
            trees: Pool::new(alloc),
        }
    }

    /// For how many trees more there is room.
    pub fn spare(&self) -> usize
        ensures { result ≡ spare_of self.now.trees }
    {
        self.trees.spare()
    }

    /// Makes room for so many trees. After `Memory` the pool is as before.
    ///
    /// # Errors
    ///
    /// `Memory` where memory ran out.
    pub fn reserve(&mut self, count: usize) -> Result<(), Memory>
        ensures room { OnOk result (count ≤ spare_of self.new.trees) }
        ensures same { (root : ℕ) → value_at self.new.trees root ≡ value_at self.old.trees root }
        ensures err { OnErr result (self.new.trees ≡ self.old.trees) }
    {
        self.trees.reserve(count)
    }

    /// Puts a tree in, under a root that was free. There is room for it, and it takes no memory.
    pub fn put(&mut self, tree: Rtx) -> Root
        requires { 0 < spare_of self.old.trees }
        ensures { IsPlaced self.old.trees self.new.trees result.index tree }
    {
        self.trees.put(tree)
    }

    /// Puts a copy of a tree in, under a root that was free. After `Memory` the pool is as before.
    ///
    /// # Errors
    ///
    /// `Memory` where memory ran out.
    pub fn place(&mut self, alloc: Global, x: &Rtx) -> Result<Root, Memory>
        ensures ok { IfOk result (λ root.
            IsPlaced self.old.trees self.new.trees root.index x.now) }
        ensures err { OnErr result (self.new.trees ≡ self.old.trees) }
    {
        let tree = x.copy(alloc)?;
        self.trees.reserve(1)?;
        Ok(self.trees.put(tree))
    }

    /// A copy of a root's tree.
    ///
    /// # Errors
    ///
    /// `Memory` where memory ran out.
    pub fn lift(&self, alloc: Global, root: Root) -> Result<Rtx, Memory>
        requires { IsLive self.now.trees root.index }
        ensures { IfOk result (λ tree. value_at self.now.trees root.index ≡ Some tree) }
    {
        self.trees.get(root).copy(alloc)
    }

    /// Takes a root's tree out. The root is free for another.
    pub fn take(&mut self, root: Root) -> Rtx
        requires { IsLive self.old.trees root.index }
        ensures tree { value_at self.old.trees root.index ≡ Some result }
        ensures released { IsReleased self.old.trees self.new.trees root.index }
    {
        self.trees.take(root)
    }

    /// Lets a root's tree go. The root is free for another.
    pub fn release(&mut self, root: Root)
        requires { IsLive self.old.trees root.index }
        ensures { IsReleased self.old.trees self.new.trees root.index }
    {
        self.take(root);
    }

    /// The head of the part at a path of a root's tree, or `None` exactly where the path does not
    /// exist.
    pub fn head_at(&self, root: Root, path: &[u32]) -> Option<RtxHead>
        requires { IsLive self.now.trees root.index }
        ensures { result ≡ option_map shown (part_of self.now.trees root.index path.now) }
    {
        head_in(self.trees.get(root), path)
    }

    /// Takes a root's tree out, and puts a blank one in its place.
    fn lend(&mut self, alloc: Global, root: Root) -> Rtx
        requires { IsLive self.old.trees root.index }
        ensures tree { value_at self.old.trees root.index ≡ Some result }
        ensures live { IsLive self.new.trees root.index }
        ensures others { (other : ℕ) → other ≢ root.index →
            value_at self.new.trees other ≡ value_at self.old.trees other }
        ensures room { spare_of self.new.trees ≡ spare_of self.old.trees }
    {
        self.trees.set(root, Rtx::const_int(alloc, 0))
    }

    /// Puts a tree in the place of a root's.
    fn put_back(&mut self, root: Root, tree: Rtx)
        requires { IsLive self.old.trees root.index }
        ensures { IsChanged self.old.trees self.new.trees root.index tree }
    {
        self.trees.set(root, tree);
    }

    /// Puts another root's tree in the place of the part at a path. That root is used up.
    pub fn replace_at(&mut self, alloc: Global, root: Root, path: &[u32], new: Root)
        requires differ { root.index ≢ new.index }
        requires live { IsLive self.old.trees new.index }
        requires there { IsSome (part_of self.old.trees root.index path.now) }
        ensures { (tree part : Rtx) → value_at self.old.trees root.index ≡ Some tree →
            value_at self.old.trees new.index ≡ Some part →
            IsJoined self.old.trees self.new.trees root.index new.index (replaced_at path.now part tree) }
    {
        let part = self.take(new);
        let mut tree = self.lend(alloc, root);
        tree.replace_at(path, part);
        self.put_back(root, tree);
    }

    /// Puts another code, mode and number in the place of those of the part at a path.
    pub fn set_head(
        &mut self,
        alloc: Global,
        root: Root,
        path: &[u32],
        code: Code,
        mode: Mode,
        number: i64,
    )
        requires { IsSome (part_of self.old.trees root.index path.now) }
        ensures { (tree part : Rtx) → value_at self.old.trees root.index ≡ Some tree →
            part_at tree path.now ≡ Some part →
            IsChanged self.old.trees self.new.trees root.index (replaced_at path.now (with_head code mode number part) tree) }
    {
        let mut tree = self.lend(alloc, root);
        set_head(alloc, &mut tree, path, code, mode, number);
        self.put_back(root, tree);
    }

    /// Puts a part of the part at a path in the place of the part.
    pub fn hoist(&mut self, alloc: Global, root: Root, path: &[u32], inner: &[u32])
        requires { IsSome (option_and_then (λ part. part_at part inner.now) (part_of self.old.trees root.index path.now)) }
        ensures { (tree part kept : Rtx) → value_at self.old.trees root.index ≡ Some tree →
            part_at tree path.now ≡ Some part → part_at part inner.now ≡ Some kept →
            IsChanged self.old.trees self.new.trees root.index (replaced_at path.now kept tree) }
    {
        let mut tree = self.lend(alloc, root);
        hoist(alloc, &mut tree, path, inner);
        self.put_back(root, tree);
    }

    /// Exchanges the two kids of the part at a path.
    pub fn swap(&mut self, alloc: Global, root: Root, path: &[u32])
        requires there { IsSome (part_of self.old.trees root.index path.now) }
        requires two { IfSome (part_of self.old.trees root.index path.now) (λ part. length (kids_of part) ≡ 2) }
        ensures { (tree part : Rtx) → value_at self.old.trees root.index ≡ Some tree →
            part_at tree path.now ≡ Some part →
            IsChanged self.old.trees self.new.trees root.index (replaced_at path.now (with_kids_turned part) tree) }
    {
        let mut tree = self.lend(alloc, root);
        swap(alloc, &mut tree, path);
        self.put_back(root, tree);
    }
}
