//! Where a node stands in a tree.
ghost use Rattle.std.specs.Prelude.{◌≡◌, ◌<◌, ◌≤◌, [], ◌∷◌, ◌++◌, length as number_of, MatchOption};
ghost use Rattle.std.specs.List.{AllByRecursion};
ghost use Rattle.cn_tree.specs.Path.{IsPath};

use std::marker::Model;

/// The digits from the root to a node, at most four of 0 to 15.
#[derive(Drop)]
pub struct NodePath {
    digits: [u8; 4],
    depth: u8,
}

impl Model for NodePath {
    ghost use Rattle.std.specs.Prelude.{List, ℕ, ◌≤◌, take};
    ghost use Rattle.cn_tree.specs.Path.{IsPath};

    ghost Value = { List ℕ };

    ghost view = { λ p. take p.depth p.digits };

    ghost invariant = { λ p. (p.depth ≤ 4) × IsPath (take p.depth p.digits) };
}

impl NodePath {
    /// The path of the root, which has no digit.
    pub fn root() -> NodePath
        ensures { result ≡ [] }
    {
        NodePath {
            digits: [0; 4],
            depth: 0,
        }
    }

    /// The path of a child, one digit longer. There is none exactly at depth 4.
    pub fn child(&self, digit: u8) -> Option<NodePath>
        requires { digit < 16 }
        ensures { MatchOption result (number_of self.now ≡ 4)
            (λ path. (path ≡ self.now ++ digit ∷ []) × (number_of self.now < 4)) }
    {
        if self.depth == 4 {
            return None;
        }
        let mut digits = self.digits;
        digits[self.depth as usize] = digit;
        Some(NodePath {
            digits,
            depth: self.depth + 1,
        })
    }

    /// The digits from the root on. It takes no memory.
    pub fn digits(&self) -> &[u8]
        ensures value { result.now ≡ self.now }
        ensures within { IsPath self.now }
    {
        &self.digits[..self.depth as usize]
    }

    /// An equal path. It takes no memory.
    pub fn copy(&self) -> NodePath
        ensures { result ≡ self.now }
    {
        NodePath {
            digits: self.digits,
            depth: self.depth,
        }
    }
}
