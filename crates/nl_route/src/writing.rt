//! Measures the body of a message of any family, and writes it.

ghost use Rattle.std.specs.Prelude.{◌≡◌, ◌≤◌, ◌+◌, ◌++◌, ◌↔◌, ◌⊎◌, IsTrue};
ghost use Rattle.std.specs.Prelude.{IfSome, vec_len, vec_capacity};
ghost use Rattle.nl_attr.specs.Fixed as fixed;
ghost use Rattle.nl_attr.specs.Shape.{shape_of};
ghost use Rattle.nl_attr.specs.Written.{items_len};
ghost use Rattle.nl_attr.specs.Proper.{IsMismatched, IsDeep, IsLong, IsSized, IsRanged};
ghost use Rattle.nl_route.specs.Fields.{AreRanged};
ghost use Rattle.nl_route.specs.Body.{WritesBody, body_written};
ghost use Rattle.nl_route.specs.Views.{attrs_in};

use crate::head::Head;
use crate::object::Object;
use nl_attr::{Depth, Extent, Order, WriteError, append_list, measure};

impl<H: Head> Object<H> {
    /// How many bytes the body is written as, in either byte order. `None` where `write_body`
    /// would answer `Mismatch` or `TooLong`. The nesting depth isn't checked.
    pub fn body_len(&self) -> Option<u32>
        ensures none { (result ≡ None) ↔ (IsMismatched (attrs_in self.now) H.ctx
            ⊎ IsLong (attrs_in self.now)) }
        ensures len { IfSome result
            (λ n. n ≡ H.SIZE + items_len (attrs_in self.now)) }
    {
        let len = self.measure(Depth::standard())?.len?;
        Some(len as u32)
    }

    /// Measures the body for writing, and finds the error that `write_body` would answer. `None`
    /// stands for `Mismatch`, `deep` for `TooDeep`, and no `len` for `TooLong`, in this order.
    ///
    /// So a caller that writes bytes before the body finds every error before it takes memory.
    /// `append_body` needs room for `len` bytes.
    pub fn measure(&self, depth: Depth) -> Option<Extent>
        ensures mismatch { (result ≡ None) ↔ IsMismatched (attrs_in self.now) H.ctx }
        ensures deep { IfSome result
            (λ e. IsTrue e.deep ↔ IsDeep (attrs_in self.now) 0 depth) }
        ensures long { IfSome result
            (λ e. (e.len ≡ None) ↔ IsLong (attrs_in self.now)) }
        ensures len { IfSome result (λ e. IfSome e.len
            (λ n. n ≡ H.SIZE + items_len (attrs_in self.now))) }
        ensures limit { IfSome result (λ e. IfSome e.len (λ n. n ≤ H.SIZE + fixed.LONGEST_REGION)) }
        // Where there is a length, the body may be appended.
        ensures sized { IfSome result
            (λ e. IfSome e.len (λ n. IsSized (attrs_in self.now))) }
        // No header has more than 64 bytes.
        ensures small { H.SIZE ≤ 64 }
    {
        let inner = measure(&self.attrs, H::context(), depth)?;
        let len = match inner.len {
            None => None,
            Some(len) => Some(H::SIZE + len),
        };
        Some(Extent {
            deep: inner.deep,
            len,
        })
    }

    /// Appends the body in this byte order. It takes no memory: `measure` has accepted the body,
    /// and `out` has room for its length.
    pub fn append_body(&self, order: Order, out: &mut Vec<u8>)
        requires sized { IsSized (attrs_in self.now) }
        requires space { vec_len out.old
            + (H.SIZE + items_len (attrs_in self.now)) ≤ vec_capacity out.old }
        ensures items { out.new.items ≡ out.old.items
            ++ body_written order (H.fields self.now.head) (attrs_in self.now) }
        ensures len { vec_len out.new
            ≡ vec_len out.old + (H.SIZE + items_len (attrs_in self.now)) }
        ensures room { vec_capacity out.old ≤ vec_capacity out.new }
        // Each number of a body in memory is in the range of its Rust type.
        ensures ranged { AreRanged (H.fields self.now.head)
            × IsRanged (attrs_in self.now) }
    {
        self.head.put_front(order, out);
        append_list(&self.attrs, order, out);
    }

    /// Appends the body to `out` in little-endian byte order, each attribute padded with zeros.
    /// After an error `out` holds what it held before. The error is the first of these that
    /// applies:
    ///
    /// - `Mismatch`: an attribute's type is 16,384 or more. Or its context, type and flags ask for
    ///   a value of another kind.
    /// - `TooDeep`: a nested attribute opens a level beyond `depth`.
    /// - `TooLong`: an attribute or next hop has more than 65,535 bytes, or a region more than
    ///   1,048,576.
    /// - `Memory`: `out` has no room, and an allocation failed.
    pub fn write_body(&self, depth: Depth, out: &mut Vec<u8>) -> Result<(), WriteError>
        ensures { WritesBody (shape_of Order.Little depth) H.SIZE (H.fields self.now.head)
            H.ctx (attrs_in self.now) out.old out.new result }
    {
        self.write_body_ordered(depth, out, Order::Little)
    }

    /// Appends the body in this byte order. All else is as in `write_body`.
    pub fn write_body_ordered(
        &self,
        depth: Depth,
        out: &mut Vec<u8>,
        order: Order,
    ) -> Result<(), WriteError>
        ensures { WritesBody (shape_of order depth) H.SIZE (H.fields self.now.head)
            H.ctx (attrs_in self.now) out.old out.new result }
    {
        let len = Extent::length(self.measure(depth))?;
        out.reserve(len)?;
        self.append_body(order, out);
        Ok(())
    }
}
