//! x

#[rattlefmt::skip]
macro_rules! choices {
    ($next:ident $($rest:tt)*) => { $next! { $($rest)*
    // 0 linkinfo-data-msg
    { Text Bytes, 0 39; 0 "amt" 0 List(Set(65)), 3 "bareudp" 0 List(Set(67)),
    10 "batadv" 0 List(Set(68)), 16 "bond" 0 List(Set(69)), 20 "bridge" 0 List(Set(70)),
    26 "caif" 0 List(Set(72)), 30 "can" 0 List(Set(73)), 33 "dsa" 0 List(Set(74)),
    36 "erspan" 0 List(Set(76)), 42 "geneve" 0 List(Set(75)), 48 "gre" 0 List(Set(76)),
    51 "gretap" 0 List(Set(76)), 57 "gtp" 0 List(Set(77)), 60 "hsr" 0 List(Set(78)),
    63 "ip6erspan" 0 List(Set(76)), 72 "ip6gre" 0 List(Set(76)), 78 "ip6gretap" 0 List(Set(76)),
    87 "ip6tnl" 0 List(Set(79)), 93 "ipip" 0 List(Set(81)), 97 "ipoib" 0 List(Set(80)),
    102 "ipvlan" 0 List(Set(82)), 108 "ipvtap" 0 List(Set(82)), 114 "macsec" 0 List(Set(83)),
    120 "macvlan" 0 List(Set(84)), 127 "macvtap" 0 List(Set(84)), 134 "netkit" 0 List(Set(85)),
    140 "ppp" 0 List(Set(86)), 143 "rmnet" 0 List(Set(87)), 148 "sit" 0 List(Set(81)),
    151 "tun" 0 List(Set(88)), 154 "veth" 0 List(Set(89)), 158 "vlan" 0 List(Set(90)),
    162 "vrf" 0 List(Set(91)), 165 "vti" 0 List(Set(93)), 168 "vti6" 0 List(Set(93)),
    172 "vxcan" 0 List(Set(94)), 177 "vxlan" 0 List(Set(95)), 182 "wwan" 0 List(Set(96)),
    186 "xfrm" 0 List(Set(97)) }
    // 1 linkinfo-member-data-msg
    { Text Bytes, 39 3; 190 "bond" 0 List(Set(5)), 194 "bridge" 0 List(Set(71)),
    200 "vrf" 0 List(Set(92)) }
    // 2 tc-options-msg
    { Text Bytes, 42 42; 203 "basic" 0 List(Set(196)), 208 "bfifo" 0 Fields(Struct(79)),
    213 "bpf" 0 List(Set(197)), 216 "cake" 0 List(Set(198)), 220 "cbs" 0 List(Set(201)),
    223 "cgroup" 0 List(Set(202)), 229 "choke" 0 List(Set(203)), 234 "clsact" 0 Flag,
    240 "codel" 0 List(Set(204)), 245 "drr" 0 List(Set(205)), 248 "etf" 0 List(Set(208)),
    251 "ets" 0 List(Set(209)), 254 "flow" 0 List(Set(210)), 258 "flower" 0 List(Set(211)),
    264 "fq" 0 List(Set(221)), 266 "fq_codel" 0 List(Set(222)), 274 "fq_pie" 0 List(Set(223)),
    280 "fw" 0 List(Set(224)), 282 "gred" 0 List(Set(227)), 286 "hfsc" 0 Fields(Struct(84)),
    290 "hhf" 0 List(Set(229)), 293 "htb" 0 List(Set(230)), 296 "ingress" 0 Flag,
    303 "matchall" 0 List(Set(231)), 311 "mq" 0 Flag, 313 "mqprio" 0 Headed(Struct(86), Set(232)),
    319 "multiq" 0 Fields(Struct(87)), 325 "netem" 0 Headed(Struct(88), Set(236)),
    330 "pfifo" 0 Fields(Struct(79)), 335 "pfifo_fast" 0 Fields(Struct(97)),
    345 "pfifo_head_drop" 0 Fields(Struct(79)), 360 "pie" 0 List(Set(240)),
    363 "plug" 0 Fields(Struct(96)), 367 "prio" 0 Fields(Struct(97)), 371 "qfq" 0 List(Set(242)),
    374 "red" 0 List(Set(243)), 377 "route" 0 List(Set(244)), 382 "sfb" 0 List(Set(245)),
    385 "sfq" 0 Fields(Struct(102)), 388 "taprio" 0 List(Set(246)), 394 "tbf" 0 List(Set(251)),
    397 "u32" 0 List(Set(256)) }
    // 3 tc-act-options-msg
    { Text Bytes, 84 19; 400 "bpf" 0 List(Set(174)), 403 "connmark" 0 List(Set(175)),
    411 "csum" 0 List(Set(176)), 415 "ct" 0 List(Set(177)), 417 "ctinfo" 0 List(Set(178)),
    423 "gact" 0 List(Set(179)), 427 "gate" 0 List(Set(180)), 431 "ife" 0 List(Set(181)),
    434 "mirred" 0 List(Set(182)), 440 "mpls" 0 List(Set(183)), 444 "nat" 0 List(Set(184)),
    447 "pedit" 0 List(Set(185)), 452 "police" 0 List(Set(186)), 458 "sample" 0 List(Set(187)),
    464 "simple" 0 List(Set(188)), 470 "skbedit" 0 List(Set(189)), 477 "skbmod" 0 List(Set(190)),
    483 "tunnel_key" 0 List(Set(192)), 493 "vlan" 0 List(Set(193)) }
    // 4 tca-stats-app-msg
    { Text Bytes, 103 16; 497 "cake" 0 List(Set(199)), 501 "choke" 0 Fields(Struct(107)),
    506 "codel" 0 Fields(Struct(108)), 511 "drr" 0 Fields(Struct(118)),
    514 "fq" 0 Fields(Struct(111)), 516 "fq_codel" 0 Fields(Struct(109)),
    524 "fq_pie" 0 Fields(Struct(110)), 530 "hfsc" 0 Fields(Struct(156)),
    534 "hhf" 0 Fields(Struct(112)), 537 "htb" 0 Fields(Struct(117)),
    540 "pie" 0 Fields(Struct(113)), 543 "qfq" 0 Fields(Struct(119)),
    546 "red" 0 Fields(Struct(114)), 549 "sfb" 0 Fields(Struct(115)),
    552 "sfq" 0 Fields(Struct(116)), 555 "taprio" 0 List(Set(247)) }
    { Text Bytes, 119 1; 561 "can" 0 Fields(Struct(51)) } // 5 linkinfo-xstats-msg
    // 6 tc-ematch-msg
    { Number Bytes, 120 2; 564 "" 4 List(Set(206)), 564 "" 3 Fields(Struct(124)) }
    // 7 af-spec-msg
    { Number List(Set(2)), 122 2; 564 "" 7 List(Set(7)), 564 "" 128 List(Set(58)) }
    { Number Bytes, 124 2; 564 "" 7 List(Set(71)), 564 "" 10 List(Set(56)) } // 8 protinfo-msg
    { Number Ip, 126 1; 564 "" 28 Fields(Struct(70)) } // 9 route-dst-msg
    // 10 lwt-msg
    { Number Bytes, 127 10; 564 "" 1 List(Set(108)), 564 "" 2 List(Set(102)),
    564 "" 3 List(Set(100)), 564 "" 4 List(Set(107)), 564 "" 5 List(Set(110)),
    564 "" 6 List(Set(98)), 564 "" 7 List(Set(111)), 564 "" 8 List(Set(109)),
    564 "" 9 List(Set(101)), 564 "" 10 List(Set(112)) }
    } };
}

pub(crate) use choices;
