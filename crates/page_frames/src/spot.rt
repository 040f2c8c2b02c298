//! Places in the functions of a script.

ghost use Rattle.std.specs.Prelude.{◌≡◌, IfOk, is_some};
ghost use Rattle.code_table.specs.Kind.{kind_of};
ghost use Rattle.code_table.specs.Node.{and_child, block_node, body_of, part_count};
ghost use Rattle.page_frames.specs.Where.{numbered, scoped, spot_node};
ghost use Rattle.page_frames.specs.Weight.{HasFewNodes};

use code_table::{FunctionCode, Kind};
use js_core::OutOfMemory;
use js_values::{EnvId, Value};
use std::alloc::Global;
use std::marker::Model;
use std::rc::Rc;

// Where code runs. The places of one run of it share it.
#[derive(Drop)]
pub struct Scene {
    pub code: FunctionCode,
    pub env: Option<EnvId>,
    pub this: Value,
}

/// A place in the code of a function that runs: the node of this number, the innermost environment (none at the top of a script) and
/// `this`. A clone shares all but the number.
pub struct Spot {
    scene: Rc<Scene>,
    node: u32,
}

impl Model for Spot {
    ghost use Rattle.page_frames.specs.Where.{Where};
    ghost use Rattle.page_frames.specs.Placed.{placed};
    ghost use Rattle.page_frames.specs.CodedWhere.{coded_where};

    ghost Value = { Where };

    ghost coded = { coded_where };

    ghost view = { λ s. placed s.scene.value s.node };
}

// A function of its own, so that the crates above cite it and do not prove it again.
impl Drop for Spot {
    fn drop(self) {
        let Spot {
            scene: _scene,
            node: _node,
        } = self;
    }
}

impl Spot {
    /// The body of a function, in this environment.
    pub fn body(
        alloc: Global,
        code: FunctionCode,
        env: Option<EnvId>,
        this: Value,
    ) -> Result<Spot, OutOfMemory>
        ensures code { IfOk result (λ s. s.code ≡ code) }
        ensures env { IfOk result (λ s. s.env ≡ env) }
        ensures this { IfOk result (λ s. s.this ≡ this) }
        ensures node { IfOk result (λ s. spot_node s ≡ Some (block_node (body_of code))) }
    {
        let node = code.body();
        let scene = Rc::new(alloc, Scene { code, env, this })?;
        Ok(Spot { scene, node })
    }

    /// The same place.
    pub fn clone(&self) -> Result<Spot, OutOfMemory>
        ensures { IfOk result (λ s. s ≡ self.now) }
    {
        Ok(Spot {
            scene: self.scene.clone()?,
            node: self.node,
        })
    }

    /// The node of another number.
    pub fn at(&self, node: u32) -> Result<Spot, OutOfMemory>
        ensures { IfOk result (λ s. s ≡ numbered self.now node) }
    {
        Ok(Spot {
            scene: self.scene.clone()?,
            node,
        })
    }

    /// The node of another number, in an environment inside this one.
    pub fn within(&self, alloc: Global, env: EnvId, node: u32) -> Result<Spot, OutOfMemory>
        ensures { IfOk result (λ s. s ≡ numbered (scoped self.now env) node) }
    {
        let scene = Scene {
            code: self.scene.code.clone()?,
            env: Some(env),
            this: self.scene.this.clone()?,
        };
        Ok(Spot {
            scene: Rc::new(alloc, scene)?,
            node,
        })
    }

    /// The innermost environment.
    pub fn env(&self) -> Option<EnvId>
        ensures { result ≡ self.now.env }
    {
        self.scene.env
    }

    /// The value of `this`.
    pub fn this(&self) -> &Value
        ensures { result.now ≡ self.now.this }
    {
        &self.scene.this
    }

    /// The kind of its node.
    pub fn kind(&self) -> &Kind
        ensures { result.now ≡ kind_of (spot_node self.now) }
    {
        self.scene.code.kind(self.node)
    }

    /// The kind of the node of another number.
    pub fn kind_at(&self, node: u32) -> &Kind
        ensures { result.now ≡ kind_of (spot_node (numbered self.now node)) }
    {
        self.scene.code.kind(node)
    }

    /// The number of its kth part. Where there is none, no node has the number.
    pub fn part(&self, k: u64) -> u32
        ensures { spot_node (numbered self.now result) ≡ and_child (spot_node self.now) k }
    {
        self.scene.code.part(self.node, k)
    }

    /// The number of the kth part of the node of another number. Where there is none, no node has the number.
    pub fn part_at(&self, node: u32, k: u64) -> u32
        ensures { spot_node (numbered self.now result)
            ≡ and_child (spot_node (numbered self.now node)) k }
    {
        self.scene.code.part(node, k)
    }

    /// Whether it has a kth part.
    pub fn has_part(&self, k: u64) -> bool
        ensures { result ≡ is_some (and_child (spot_node self.now) k) }
    {
        self.scene.code.has_part(self.node, k)
    }

    /// How many parts it has, absent ones counted.
    pub fn part_count(&self) -> usize
        ensures { result ≡ part_count (spot_node self.now) }
    {
        self.scene.code.part_count(self.node)
    }

    /// The code at hand has less than 2^32 nodes. No cost.
    pub fn is_small(&self)
        ensures { HasFewNodes self.now.code }
    {
        let _count = self.scene.code.node_count();
    }
}
