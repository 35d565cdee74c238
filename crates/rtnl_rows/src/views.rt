//! The heads of families and their bodies: their fields, and what the views of bodies find.

use crate::row::{Row, put_fields, unsigned};
use crate::trees::{put_attrs, put_hops};
use nl_attr::Order;
use nl_route::{AddrHead, Head, LinkHead, NeighHead, Object, RouteHead, RuleHead};

/// A head of which all fields are answered.
pub(crate) trait Fields: Head {
    /// Answers the fields of a head, those that may be below 0 at last.
    fn put(&self, row: &mut Row<'_>);

    /// Answers a head in just so many bytes, and as it is written by each call.
    fn tell(row: &mut Row<'_>);

    /// Answers what the views of a body find, each in the order of its attributes.
    fn views(body: &Object<Self>, row: &mut Row<'_>);
}

/// Answers all of a body, behind the number of its family.
pub(crate) fn put_object<H: Fields>(row: &mut Row<'_>, body: &Object<H>) {
    row.put(H::family() as u64);
    body.head.put(row);
    put_attrs(row, body.attrs.as_slice());
}

/// Answers a head of this type that is read by the call for the order, or by its twin.
macro_rules! tell_head {
    ($row:ident, $Head:ident) => {{
        let (order, bytes) = ($row.twin(), $row.array());
        let head = match order {
            Some(order) => $Head::read_ordered(&bytes, order),
            None => $Head::read(&bytes),
        };
        $row.put($Head::family() as u64);
        head.put($row);
        $row.put_bytes(&head.write());
        $row.put_bytes(&head.write_ordered(Order::Little));
        $row.put_bytes(&head.write_ordered(Order::Big));
    }};
}

/// Answers the number that a view finds by the call that names no order, by that for the lowest
/// byte first, and by that for the highest. An argument is a body, such a call, and its twin.
macro_rules! put_numbers {
    ($row:ident, $body:ident, $($view:ident $ordered:ident)+) => {
        $(put_each($row, [
            $body.$view(), $body.$ordered(Order::Little), $body.$ordered(Order::Big),
        ]);)+
    };
}

/// The same of a number that each call finds.
macro_rules! put_number {
    ($row:ident, $body:ident, $view:ident $ordered:ident) => {
        $row.put_all(&[
            $body.$view() as u64,
            $body.$ordered(Order::Little) as u64,
            $body.$ordered(Order::Big) as u64,
        ])
    };
}

fn put_each(row: &mut Row<'_>, found: [Option<u32>; 3]) {
    let [number, little, big] = found;
    row.put_maybe(number.map(u64::from));
    row.put_maybe(little.map(u64::from));
    row.put_maybe(big.map(u64::from));
}

impl Fields for LinkHead {
    fn put(&self, row: &mut Row<'_>) {
        put_fields!(row, self, family hardware flags change);
        row.put(unsigned(self.index));
    }

    fn tell(row: &mut Row<'_>) {
        tell_head!(row, LinkHead)
    }

    fn views(link: &Object<LinkHead>, row: &mut Row<'_>) {
        row.put_found(link.name());
        row.put_found(link.kind());
        put_numbers!(row, link, mtu mtu_ordered master master_ordered);
        row.put_maybe(link.operstate().map(u64::from));
    }
}

impl Fields for AddrHead {
    fn put(&self, row: &mut Row<'_>) {
        put_fields!(row, self, family prefixlen flags scope index);
    }

    fn tell(row: &mut Row<'_>) {
        tell_head!(row, AddrHead)
    }

    fn views(addr: &Object<AddrHead>, row: &mut Row<'_>) {
        row.put_found(addr.address());
        row.put_found(addr.local());
        row.put_found(addr.label());
        row.put_found(addr.broadcast());
        put_number!(row, addr, flags_full flags_full_ordered);
    }
}

impl Fields for RouteHead {
    fn put(&self, row: &mut Row<'_>) {
        put_fields!(row, self, family dst_len src_len tos table protocol scope sort flags);
    }

    fn tell(row: &mut Row<'_>) {
        tell_head!(row, RouteHead)
    }

    fn views(route: &Object<RouteHead>, row: &mut Row<'_>) {
        row.put_found(route.dst());
        row.put_found(route.src());
        row.put_found(route.gateway());
        row.put_found(route.prefsrc());
        put_numbers!(row, route, iif iif_ordered oif oif_ordered priority priority_ordered);
        put_number!(row, route, table_id table_id_ordered);
        put_attrs(row, route.metrics());
        put_hops(row, route.hops());
    }
}

impl Fields for NeighHead {
    fn put(&self, row: &mut Row<'_>) {
        put_fields!(row, self, family state flags sort);
        row.put(unsigned(self.ifindex));
    }

    fn tell(row: &mut Row<'_>) {
        tell_head!(row, NeighHead)
    }

    fn views(neigh: &Object<NeighHead>, row: &mut Row<'_>) {
        row.put_found(neigh.dst());
        row.put_found(neigh.lladdr());
        row.put_maybe(neigh.vlan().map(u64::from));
        row.put_maybe(neigh.vlan_ordered(Order::Little).map(u64::from));
        row.put_maybe(neigh.vlan_ordered(Order::Big).map(u64::from));
        put_numbers!(row, neigh, vni vni_ordered);
        row.put_maybe(neigh.port().map(u64::from));
        row.put(neigh.state() as u64);
    }
}

impl Fields for RuleHead {
    fn put(&self, row: &mut Row<'_>) {
        put_fields!(row, self, family dst_len src_len tos table action flags);
    }

    fn tell(row: &mut Row<'_>) {
        tell_head!(row, RuleHead)
    }

    fn views(rule: &Object<RuleHead>, row: &mut Row<'_>) {
        row.put_found(rule.dst());
        row.put_found(rule.src());
        row.put_found(rule.iifname());
        row.put_found(rule.oifname());
        put_numbers!(row, rule, target target_ordered priority priority_ordered);
        put_numbers!(row, rule, fwmark fwmark_ordered fwmask fwmask_ordered);
        put_number!(row, rule, table_id table_id_ordered);
    }
}
