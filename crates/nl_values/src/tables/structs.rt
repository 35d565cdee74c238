//! x

#[rattlefmt::skip]
macro_rules! structs {
    ($next:ident $($rest:tt)*) => { $next! { $($rest)*
    // 0 nlmsghdr
    { 16 16 0 5; 0 "nlmsg_len" 0 4 U32, 9 "nlmsg_type" 4 2 U16,
    19 "nlmsg_flags" 6 2 Bits(Number::U16, Names(0)), 30 "nlmsg_seq" 8 4 U32,
    39 "nlmsg_pid" 12 4 U32 }
    { 20 20 5 2; 48 "error" 0 4 I32, 53 "msg" 4 16 Fields(Struct(0)) } // 1 nlmsgerr
    { 4 4 7 2; 56 "rta_len" 0 2 U16, 63 "rta_type" 2 2 U16 } // 2 rtattr
    // 3 rtnexthop
    { 8 8 9 4; 71 "rtnh_len" 0 2 U16, 79 "rtnh_flags" 2 1 Bits(Number::U8, Names(80)),
    89 "rtnh_hops" 3 1 U8, 98 "rtnh_ifindex" 4 4 I32 }
    { 1 1 13 1; 110 "rtgen_family" 0 1 Value(Number::U8, Names(2)) } // 4 rtgenmsg
    // 5 ifinfomsg
    { 16 16 14 5; 122 "ifi_family" 0 1 Value(Number::U8, Names(2)),
    132 "ifi_type" 2 2 Value(Number::U16, Names(7)), 140 "ifi_index" 4 4 I32,
    149 "ifi_flags" 8 4 Bits(Number::U32, Names(4)),
    158 "ifi_change" 12 4 Bits(Number::U32, Names(4)) }
    // 6 ifaddrmsg
    { 8 8 19 5; 168 "ifa_family" 0 1 Value(Number::U8, Names(2)), 178 "ifa_prefixlen" 1 1 U8,
    191 "ifa_flags" 2 1 Bits(Number::U8, Names(70)),
    200 "ifa_scope" 3 1 Value(Number::U8, Names(77)), 209 "ifa_index" 4 4 U32 }
    // 7 rtmsg
    { 12 12 24 9; 218 "rtm_family" 0 1 Value(Number::U8, Names(2)), 228 "rtm_dst_len" 1 1 U8,
    239 "rtm_src_len" 2 1 U8, 250 "rtm_tos" 3 1 U8,
    257 "rtm_table" 4 1 Value(Number::U8, Names(78)),
    266 "rtm_protocol" 5 1 Value(Number::U8, Names(76)),
    278 "rtm_scope" 6 1 Value(Number::U8, Names(77)),
    287 "rtm_type" 7 1 Value(Number::U8, Names(75)),
    295 "rtm_flags" 8 4 Bits(Number::U32, Names(79)) }
    // 8 ndmsg
    { 12 12 33 5; 304 "ndm_family" 0 1 Value(Number::U8, Names(2)), 314 "ndm_ifindex" 4 4 I32,
    325 "ndm_state" 8 2 Bits(Number::U16, Names(72)),
    334 "ndm_flags" 10 1 Bits(Number::U8, Names(73)),
    343 "ndm_type" 11 1 Value(Number::U8, Names(75)) }
    // 9 fib-rule-hdr
    { 12 12 38 7; 351 "family" 0 1 Value(Number::U8, Names(2)), 357 "dst_len" 1 1 U8,
    364 "src_len" 2 1 U8, 371 "tos" 3 1 U8, 374 "table" 4 1 Value(Number::U8, Names(78)),
    379 "action" 7 1 Value(Number::U8, Names(90)), 385 "flags" 8 4 Bits(Number::U32, Names(91)) }
    // 10 tcmsg
    { 20 20 45 5; 390 "tcm_family" 0 1 U8, 400 "tcm_ifindex" 4 4 I32, 411 "tcm_handle" 8 4 U32,
    421 "tcm_parent" 12 4 Value(Number::U32, Names(94)), 431 "tcm_info" 16 4 U32 }
    { 4 4 50 1; 439 "tca_family" 0 1 U8 } // 11 tcamsg
    { 4 4 51 1; 449 "ndtm_family" 0 1 U8 } // 12 ndtmsg
    { 1 1 52 1; 460 "ncm_family" 0 1 U8 } // 13 netconfmsg
    // 14 ifaddrlblmsg
    { 12 12 53 5; 470 "ifal_family" 0 1 U8, 481 "ifal_prefixlen" 2 1 U8, 495 "ifal_flags" 3 1 U8,
    505 "ifal_index" 4 4 U32, 515 "ifal_seq" 8 4 U32 }
    // 15 prefixmsg
    { 12 12 58 5; 523 "prefix_family" 0 1 U8, 536 "prefix_ifindex" 4 4 I32,
    550 "prefix_type" 8 1 U8, 561 "prefix_len" 9 1 U8, 571 "prefix_flags" 10 1 U8 }
    // 16 nduseroptmsg
    { 16 16 63 5; 583 "nduseropt_family" 0 1 U8, 599 "nduseropt_opts_len" 2 2 U16,
    617 "nduseropt_ifindex" 4 4 I32, 634 "nduseropt_icmp_type" 8 1 U8,
    653 "nduseropt_icmp_code" 9 1 U8 }
    { 4 4 68 2; 672 "dcb_family" 0 1 U8, 682 "cmd" 1 1 U8 } // 17 dcbmsg
    { 8 8 70 2; 685 "family" 0 1 U8, 691 "ifindex" 4 4 U32 } // 18 br-port-msg
    { 8 8 72 2; 698 "family" 0 1 U8, 704 "ifindex" 4 4 U32 } // 19 br-vlan-msg
    // 20 if_stats_msg
    { 12 12 74 3; 711 "family" 0 1 U8, 717 "ifindex" 4 4 U32, 724 "filter_mask" 8 4 U32 }
    // 21 nhmsg
    { 8 8 77 5; 735 "nh_family" 0 1 U8, 744 "nh_scope" 1 1 Value(Number::U8, Names(77)),
    752 "nh_protocol" 2 1 Value(Number::U8, Names(76)), 763 "resvd" 3 1 U8,
    768 "nh_flags" 4 4 Bits(Number::U32, Names(80)) }
    // 22 tunnel-msg
    { 8 8 82 3; 776 "family" 0 1 U8, 782 "flags" 1 1 Bits(Number::U8, Names(41)),
    787 "ifindex" 4 4 U32 }
    { 8 8 85 2; 794 "value" 0 4 U32, 799 "selector" 4 4 U32 } // 23 nla-bitfield32
    // 24 rtnl-link-stats
    { 96 96 87 24; 807 "rx_packets" 0 4 U32, 817 "tx_packets" 4 4 U32, 827 "rx_bytes" 8 4 U32,
    835 "tx_bytes" 12 4 U32, 843 "rx_errors" 16 4 U32, 852 "tx_errors" 20 4 U32,
    861 "rx_dropped" 24 4 U32, 871 "tx_dropped" 28 4 U32, 881 "multicast" 32 4 U32,
    890 "collisions" 36 4 U32, 900 "rx_length_errors" 40 4 U32, 916 "rx_over_errors" 44 4 U32,
    930 "rx_crc_errors" 48 4 U32, 943 "rx_frame_errors" 52 4 U32, 958 "rx_fifo_errors" 56 4 U32,
    972 "rx_missed_errors" 60 4 U32, 988 "tx_aborted_errors" 64 4 U32,
    1005 "tx_carrier_errors" 68 4 U32, 1022 "tx_fifo_errors" 72 4 U32,
    1036 "tx_heartbeat_errors" 76 4 U32, 1055 "tx_window_errors" 80 4 U32,
    1071 "rx_compressed" 84 4 U32, 1084 "tx_compressed" 88 4 U32, 1097 "rx_nohandler" 92 4 U32 }
    // 25 rtnl-link-stats64
    { 200 200 111 25; 1109 "rx_packets" 0 8 U64, 1119 "tx_packets" 8 8 U64,
    1129 "rx_bytes" 16 8 U64, 1137 "tx_bytes" 24 8 U64, 1145 "rx_errors" 32 8 U64,
    1154 "tx_errors" 40 8 U64, 1163 "rx_dropped" 48 8 U64, 1173 "tx_dropped" 56 8 U64,
    1183 "multicast" 64 8 U64, 1192 "collisions" 72 8 U64, 1202 "rx_length_errors" 80 8 U64,
    1218 "rx_over_errors" 88 8 U64, 1232 "rx_crc_errors" 96 8 U64,
    1245 "rx_frame_errors" 104 8 U64, 1260 "rx_fifo_errors" 112 8 U64,
    1274 "rx_missed_errors" 120 8 U64, 1290 "tx_aborted_errors" 128 8 U64,
    1307 "tx_carrier_errors" 136 8 U64, 1324 "tx_fifo_errors" 144 8 U64,
    1338 "tx_heartbeat_errors" 152 8 U64, 1357 "tx_window_errors" 160 8 U64,
    1373 "rx_compressed" 168 8 U64, 1386 "tx_compressed" 176 8 U64, 1399 "rx_nohandler" 184 8 U64,
    1411 "rx_otherhost_dropped" 192 8 U64 }
    // 26 rtnl-hw-stats64
    { 72 72 136 9; 1431 "rx_packets" 0 8 U64, 1441 "tx_packets" 8 8 U64, 1451 "rx_bytes" 16 8 U64,
    1459 "tx_bytes" 24 8 U64, 1467 "rx_errors" 32 8 U64, 1476 "tx_errors" 40 8 U64,
    1485 "rx_dropped" 48 8 U64, 1495 "tx_dropped" 56 8 U64, 1505 "multicast" 64 8 U64 }
    // 27 rtnl-link-ifmap
    { 32 32 145 6; 1514 "mem_start" 0 8 U64, 1523 "mem_end" 8 8 U64, 1530 "base_addr" 16 8 U64,
    1539 "irq" 24 2 U16, 1542 "dma" 26 1 U8, 1545 "port" 27 1 U8 }
    { 8 8 151 2; 1549 "prio" 0 2 NETWORK_U16, 1553 "addr" 2 6 Mac } // 28 ifla-bridge-id
    // 29 ifla-cacheinfo
    { 16 16 153 4; 1557 "max_reasm_len" 0 4 U32, 1570 "tstamp" 4 4 U32,
    1576 "reachable_time" 8 4 U32, 1590 "retrans_time" 12 4 U32 }
    // 30 ifla-port-vsi
    { 8 8 157 4; 1602 "vsi_mgr_id" 0 1 U8, 1612 "vsi_type_id" 1 3 Bytes,
    1623 "vsi_type_version" 4 1 U8, 1639 "pad" 5 3 Bytes }
    { 36 36 161 2; 1642 "vf" 0 4 U32, 1644 "mac" 4 32 Bytes } // 31 ifla-vf-mac
    { 32 32 163 1; 1647 "broadcast" 0 32 Bytes } // 32 ifla-vf-broadcast
    { 12 12 164 3; 1656 "vf" 0 4 U32, 1658 "vlan" 4 4 U32, 1662 "qos" 8 4 U32 } // 33 ifla-vf-vlan
    // 34 ifla-vf-vlan-info
    { 16 16 167 4; 1665 "vf" 0 4 U32, 1667 "vlan" 4 4 U32, 1671 "qos" 8 4 U32,
    1674 "vlan_proto" 12 2 Value(Number::NetworkU16, Names(9)) }
    { 8 8 171 2; 1684 "vf" 0 4 U32, 1686 "rate" 4 4 U32 } // 35 ifla-vf-tx-rate
    // 36 ifla-vf-rate
    { 12 12 173 3; 1690 "vf" 0 4 U32, 1692 "min_tx_rate" 4 4 U32, 1703 "max_tx_rate" 8 4 U32 }
    { 8 8 176 2; 1714 "vf" 0 4 U32, 1716 "setting" 4 4 U32 } // 37 ifla-vf-spoofchk
    { 16 16 178 2; 1723 "vf" 0 4 U32, 1725 "guid" 8 8 U64 } // 38 ifla-vf-guid
    // 39 ifla-vf-link-state
    { 8 8 180 2; 1729 "vf" 0 4 U32, 1731 "link_state" 4 4 Value(Number::U32, Names(11)) }
    { 8 8 182 2; 1741 "vf" 0 4 U32, 1743 "setting" 4 4 U32 } // 40 ifla-vf-rss-query-en
    { 8 8 184 2; 1750 "vf" 0 4 U32, 1752 "setting" 4 4 U32 } // 41 ifla-vf-trust
    // 42 ifla-vlan-flags
    { 8 8 186 2; 1759 "flags" 0 4 Bits(Number::U32, Names(10)),
    1764 "mask" 4 4 Bits(Number::U32, Names(10)) }
    { 8 8 188 2; 1768 "from" 0 4 U32, 1772 "to" 4 4 U32 } // 43 ifla-vlan-qos-mapping
    // 44 ifla-vxlan-port-range
    { 4 4 190 2; 1774 "low" 0 2 NETWORK_U16, 1777 "high" 2 2 NETWORK_U16 }
    // 45 ifla-rmnet-flags
    { 8 8 192 2; 1781 "flags" 0 4 Bits(Number::U32, Names(37)),
    1786 "mask" 4 4 Bits(Number::U32, Names(37)) }
    // 46 can-bittiming
    { 32 32 194 8; 1790 "bitrate" 0 4 U32, 1797 "sample_point" 4 4 U32, 1809 "tq" 8 4 U32,
    1811 "prop_seg" 12 4 U32, 1819 "phase_seg1" 16 4 U32, 1829 "phase_seg2" 20 4 U32,
    1839 "sjw" 24 4 U32, 1842 "brp" 28 4 U32 }
    // 47 can-bittiming-const
    { 48 48 202 9; 1845 "name" 0 16 Text, 1849 "tseg1_min" 16 4 U32, 1858 "tseg1_max" 20 4 U32,
    1867 "tseg2_min" 24 4 U32, 1876 "tseg2_max" 28 4 U32, 1885 "sjw_max" 32 4 U32,
    1892 "brp_min" 36 4 U32, 1899 "brp_max" 40 4 U32, 1906 "brp_inc" 44 4 U32 }
    { 4 4 211 1; 1913 "freq" 0 4 U32 } // 48 can-clock
    // 49 can-ctrlmode
    { 8 8 212 2; 1917 "mask" 0 4 Bits(Number::U32, Names(40)),
    1921 "flags" 4 4 Bits(Number::U32, Names(40)) }
    { 4 4 214 2; 1926 "txerr" 0 2 U16, 1931 "rxerr" 2 2 U16 } // 50 can-berr-counter
    // 51 can-device-stats
    { 24 24 216 6; 1936 "bus_error" 0 4 U32, 1945 "error_warning" 4 4 U32,
    1958 "error_passive" 8 4 U32, 1971 "bus_off" 12 4 U32, 1978 "arbitration_lost" 16 4 U32,
    1994 "restarts" 20 4 U32 }
    // 52 br-boolopt-multi
    { 8 8 222 2; 2002 "optval" 0 4 Bits(Number::U32, Names(125)),
    2008 "optmask" 4 4 Bits(Number::U32, Names(125)) }
    // 53 bridge-vlan-info
    { 4 4 224 2; 2015 "flags" 0 2 Bits(Number::U16, Names(63)), 2020 "vid" 2 2 U16 }
    // 54 bridge-vlan-xstats
    { 40 40 226 6; 2023 "rx_bytes" 0 8 U64, 2031 "rx_packets" 8 8 U64, 2041 "tx_bytes" 16 8 U64,
    2049 "tx_packets" 24 8 U64, 2059 "vid" 32 2 U16,
    2062 "flags" 34 2 Bits(Number::U16, Names(63)) }
    // 55 bridge-stp-xstats
    { 48 48 232 6; 2067 "transition_blk" 0 8 U64, 2081 "transition_fwd" 8 8 U64,
    2095 "rx_bpdu" 16 8 U64, 2102 "tx_bpdu" 24 8 U64, 2109 "rx_tcn" 32 8 U64,
    2115 "tx_tcn" 40 8 U64 }
    // 56 br-mcast-stats
    { 240 240 238 16; 2121 "igmp_v1queries" 0 16 Series(Number::U64),
    2135 "igmp_v2queries" 16 16 Series(Number::U64),
    2149 "igmp_v3queries" 32 16 Series(Number::U64), 2163 "igmp_leaves" 48 16 Series(Number::U64),
    2174 "igmp_v1reports" 64 16 Series(Number::U64),
    2188 "igmp_v2reports" 80 16 Series(Number::U64),
    2202 "igmp_v3reports" 96 16 Series(Number::U64), 2216 "igmp_parse_errors" 112 8 U64,
    2233 "mld_v1queries" 120 16 Series(Number::U64),
    2246 "mld_v2queries" 136 16 Series(Number::U64), 2259 "mld_leaves" 152 16 Series(Number::U64),
    2269 "mld_v1reports" 168 16 Series(Number::U64),
    2282 "mld_v2reports" 184 16 Series(Number::U64), 2295 "mld_parse_errors" 200 8 U64,
    2311 "mcast_bytes" 208 16 Series(Number::U64),
    2322 "mcast_packets" 224 16 Series(Number::U64) }
    // 57 br-mdb-entry
    { 28 28 254 6; 2335 "ifindex" 0 4 U32, 2342 "state" 4 1 Value(Number::U8, Names(66)),
    2347 "flags" 5 1 Bits(Number::U8, Names(67)), 2352 "vid" 6 2 U16, 2355 "addr.u" 8 16 Bytes,
    2361 "addr.proto" 24 2 Value(Number::NetworkU16, Names(68)) }
    // 58 ifa-cacheinfo
    { 16 16 260 4; 2371 "ifa_prefered" 0 4 U32, 2383 "ifa_valid" 4 4 U32, 2392 "cstamp" 8 4 U32,
    2398 "tstamp" 12 4 U32 }
    // 59 nda-cacheinfo
    { 16 16 264 4; 2404 "ndm_confirmed" 0 4 U32, 2417 "ndm_used" 4 4 U32,
    2425 "ndm_updated" 8 4 U32, 2436 "ndm_refcnt" 12 4 U32 }
    // 60 ndt-config
    { 32 32 268 9; 2446 "ndtc_key_len" 0 2 U16, 2458 "ndtc_entry_size" 2 2 U16,
    2473 "ndtc_entries" 4 4 U32, 2485 "ndtc_last_flush" 8 4 U32, 2500 "ndtc_last_rand" 12 4 U32,
    2514 "ndtc_hash_rnd" 16 4 U32, 2527 "ndtc_hash_mask" 20 4 U32,
    2541 "ndtc_hash_chain_gc" 24 4 U32, 2559 "ndtc_proxy_qlen" 28 4 U32 }
    // 61 ndt-stats
    { 88 88 277 11; 2574 "ndts_allocs" 0 8 U64, 2585 "ndts_destroys" 8 8 U64,
    2598 "ndts_hash_grows" 16 8 U64, 2613 "ndts_res_failed" 24 8 U64,
    2628 "ndts_lookups" 32 8 U64, 2640 "ndts_hits" 40 8 U64,
    2649 "ndts_rcv_probes_mcast" 48 8 U64, 2670 "ndts_rcv_probes_ucast" 56 8 U64,
    2691 "ndts_periodic_gc_runs" 64 8 U64, 2712 "ndts_forced_gc_runs" 72 8 U64,
    2731 "ndts_table_fulls" 80 8 U64 }
    // 62 rta-cacheinfo
    { 32 32 288 8; 2747 "rta_clntref" 0 4 U32, 2758 "rta_lastuse" 4 4 U32,
    2769 "rta_expires" 8 4 I32, 2780 "rta_error" 12 4 U32, 2789 "rta_used" 16 4 U32,
    2797 "rta_id" 20 4 U32, 2803 "rta_ts" 24 4 U32, 2809 "rta_tsage" 28 4 U32 }
    // 63 rta-mfc-stats
    { 24 24 296 3; 2818 "mfcs_packets" 0 8 U64, 2830 "mfcs_bytes" 8 8 U64,
    2840 "mfcs_wrong_if" 16 8 U64 }
    // 64 rtvia
    { 2 65535 299 2; 2853 "rtvia_family" 0 2 Value(Number::U16, Names(2)),
    2865 "rtvia_addr" 2 0 Ip }
    { 8 8 301 2; 2875 "preferred_time" 0 4 U32, 2889 "valid_time" 4 4 U32 } // 65 prefix-cacheinfo
    { 8 8 303 2; 2899 "start" 0 4 U32, 2904 "end" 4 4 U32 } // 66 fib-rule-uid-range
    { 4 4 305 2; 2907 "start" 0 2 U16, 2912 "end" 2 2 U16 } // 67 fib-rule-port-range
    // 68 nexthop-grp
    { 8 8 307 4; 2915 "id" 0 4 U32, 2917 "weight" 4 1 U8, 2923 "weight_high" 5 1 U8,
    2934 "resvd2" 6 2 U16 }
    // 69 mpls-link-stats
    { 72 72 311 9; 2940 "rx_packets" 0 8 U64, 2950 "tx_packets" 8 8 U64, 2960 "rx_bytes" 16 8 U64,
    2968 "tx_bytes" 24 8 U64, 2976 "rx_errors" 32 8 U64, 2985 "tx_errors" 40 8 U64,
    2994 "rx_dropped" 48 8 U64, 3004 "tx_dropped" 56 8 U64, 3014 "rx_noroute" 64 8 U64 }
    { 4 4 320 1; 3024 "entry" 0 4 NETWORK_U32 } // 70 mpls-label
    // 71 seg6-iptunnel-encap
    { 4 65535 321 2; 3029 "mode" 0 4 Value(Number::I32, Names(84)),
    3033 "srh" 4 0 Fields(Struct(72)) }
    // 72 ipv6-sr-hdr
    { 8 65535 323 8; 3036 "nexthdr" 0 1 U8, 3043 "hdrlen" 1 1 U8, 3049 "type" 2 1 U8,
    3053 "segments_left" 3 1 U8, 3066 "first_segment" 4 1 U8, 3079 "flags" 5 1 U8,
    3084 "tag" 6 2 U16, 3087 "segments" 8 0 Array(Struct(73)) }
    { 16 16 331 1; 3095 "s6_addr" 0 16 Ipv6 } // 73 in6-addr
    // 74 ipv6-rpl-sr-hdr
    { 8 65535 332 6; 3102 "nexthdr" 0 1 U8, 3109 "hdrlen" 1 1 U8, 3115 "type" 2 1 U8,
    3119 "segments_left" 3 1 U8, 3132 "cmpri+cmpre+pad+reserved" 4 4 NETWORK_U32,
    3156 "segments" 8 0 Bytes }
    // 75 ioam6-trace-hdr
    { 8 65535 338 5; 3164 "namespace_id" 0 2 NETWORK_U16, 3176 "nodelen+overflow" 2 1 U8,
    3192 "remlen+unused" 3 1 U8, 3205 "type_be32" 4 4 NETWORK_U32, 3214 "data" 8 0 Bytes }
    // 76 tc-stats
    { 40 40 343 8; 3218 "bytes" 0 8 U64, 3223 "packets" 8 4 U32, 3230 "drops" 12 4 U32,
    3235 "overlimits" 16 4 U32, 3245 "bps" 20 4 U32, 3248 "pps" 24 4 U32, 3251 "qlen" 28 4 U32,
    3255 "backlog" 32 4 U32 }
    // 77 tc-cbs-qopt
    { 20 20 351 5; 3262 "offload" 0 1 U8, 3269 "hicredit" 4 4 I32, 3277 "locredit" 8 4 I32,
    3285 "idleslope" 12 4 I32, 3294 "sendslope" 16 4 I32 }
    // 78 tc-etf-qopt
    { 12 12 356 3; 3303 "delta" 0 4 I32, 3308 "clockid" 4 4 I32,
    3315 "flags" 8 4 Bits(Number::U32, Names(108)) }
    { 4 4 359 1; 3320 "limit" 0 4 U32 } // 79 tc-fifo-qopt
    // 80 tc-htb-opt
    { 44 44 360 7; 3325 "rate" 0 12 Fields(Struct(103)), 3329 "ceil" 12 12 Fields(Struct(103)),
    3333 "buffer" 24 4 U32, 3339 "cbuffer" 28 4 U32, 3346 "quantum" 32 4 U32,
    3353 "level" 36 4 U32, 3358 "prio" 40 4 U32 }
    // 81 tc-htb-glob
    { 20 20 367 5; 3362 "version" 0 4 U32, 3369 "rate2quantum" 4 4 U32, 3381 "defcls" 8 4 U32,
    3387 "debug" 12 4 U32, 3392 "direct_pkts" 16 4 U32 }
    // 82 tc-gred-qopt
    { 52 52 372 16; 3403 "limit" 0 4 U32, 3408 "qth_min" 4 4 U32, 3415 "qth_max" 8 4 U32,
    3422 "DP" 12 4 U32, 3424 "backlog" 16 4 U32, 3431 "qave" 20 4 U32, 3435 "forced" 24 4 U32,
    3441 "early" 28 4 U32, 3446 "other" 32 4 U32, 3451 "pdrop" 36 4 U32, 3456 "Wlog" 40 1 U8,
    3460 "Plog" 41 1 U8, 3464 "Scell_log" 42 1 U8, 3473 "prio" 43 1 U8, 3477 "packets" 44 4 U32,
    3484 "bytesin" 48 4 U32 }
    // 83 tc-gred-sopt
    { 12 12 388 4; 3491 "DPs" 0 4 U32, 3494 "def_DP" 4 4 U32, 3500 "grio" 8 1 U8,
    3504 "flags" 9 1 U8 }
    { 2 2 392 1; 3509 "defcls" 0 2 U16 } // 84 tc-hfsc-qopt
    { 12 12 393 3; 3515 "m1" 0 4 U32, 3517 "d" 4 4 U32, 3518 "m2" 8 4 U32 } // 85 tc-service-curve
    // 86 tc-mqprio-qopt
    { 82 82 396 5; 3520 "num_tc" 0 1 U8, 3526 "prio_tc_map" 1 16 Series(Number::U8),
    3537 "hw" 17 1 U8, 3539 "count" 18 32 Series(Number::U16),
    3544 "offset" 50 32 Series(Number::U16) }
    { 4 4 401 2; 3550 "bands" 0 2 U16, 3555 "max_bands" 2 2 U16 } // 87 tc-multiq-qopt
    // 88 tc-netem-qopt
    { 24 24 403 6; 3564 "latency" 0 4 U32, 3571 "limit" 4 4 U32, 3576 "loss" 8 4 U32,
    3580 "gap" 12 4 U32, 3583 "duplicate" 16 4 U32, 3592 "jitter" 20 4 U32 }
    // 89 tc-netem-gimodel
    { 20 20 409 5; 3598 "p13" 0 4 U32, 3601 "p31" 4 4 U32, 3604 "p32" 8 4 U32,
    3607 "p14" 12 4 U32, 3610 "p23" 16 4 U32 }
    // 90 tc-netem-gemodel
    { 16 16 414 4; 3613 "p" 0 4 U32, 3614 "r" 4 4 U32, 3615 "h" 8 4 U32, 3616 "k1" 12 4 U32 }
    // 91 tc-netem-corr
    { 12 12 418 3; 3618 "delay_corr" 0 4 U32, 3628 "loss_corr" 4 4 U32, 3637 "dup_corr" 8 4 U32 }
    { 8 8 421 2; 3645 "probability" 0 4 U32, 3656 "correlation" 4 4 U32 } // 92 tc-netem-reorder
    { 8 8 423 2; 3667 "probability" 0 4 U32, 3678 "correlation" 4 4 U32 } // 93 tc-netem-corrupt
    // 94 tc-netem-rate
    { 16 16 425 4; 3689 "rate" 0 4 U32, 3693 "packet_overhead" 4 4 I32, 3708 "cell_size" 8 4 U32,
    3717 "cell_overhead" 12 4 I32 }
    // 95 tc-netem-slot
    { 40 40 429 6; 3730 "min_delay" 0 8 I64, 3739 "max_delay" 8 8 I64,
    3748 "max_packets" 16 4 I32, 3759 "max_bytes" 20 4 I32, 3768 "dist_delay" 24 8 I64,
    3778 "dist_jitter" 32 8 I64 }
    { 8 8 435 2; 3789 "action" 0 4 I32, 3795 "limit" 4 4 U32 } // 96 tc-plug-qopt
    // 97 tc-prio-qopt
    { 20 20 437 2; 3800 "bands" 0 4 I32, 3805 "priomap" 4 16 Series(Number::U8) }
    // 98 tc-red-qopt
    { 16 16 439 7; 3812 "limit" 0 4 U32, 3817 "qth_min" 4 4 U32, 3824 "qth_max" 8 4 U32,
    3831 "Wlog" 12 1 U8, 3835 "Plog" 13 1 U8, 3839 "Scell_log" 14 1 U8,
    3848 "flags" 15 1 Bits(Number::U8, Names(107)) }
    // 99 tc-sfb-qopt
    { 36 36 446 9; 3853 "rehash_interval" 0 4 U32, 3868 "warmup_time" 4 4 U32, 3879 "max" 8 4 U32,
    3882 "bin_size" 12 4 U32, 3890 "increment" 16 4 U32, 3899 "decrement" 20 4 U32,
    3908 "limit" 24 4 U32, 3913 "penalty_rate" 28 4 U32, 3925 "penalty_burst" 32 4 U32 }
    // 100 tc-sfq-qopt
    { 20 20 455 5; 3938 "quantum" 0 4 U32, 3945 "perturb_period" 4 4 I32, 3959 "limit" 8 4 U32,
    3964 "divisor" 12 4 U32, 3971 "flows" 16 4 U32 }
    // 101 tc-sfqred-stats
    { 24 24 460 6; 3976 "prob_drop" 0 4 U32, 3985 "forced_drop" 4 4 U32, 3996 "prob_mark" 8 4 U32,
    4005 "forced_mark" 12 4 U32, 4016 "prob_mark_head" 16 4 U32,
    4030 "forced_mark_head" 20 4 U32 }
    // 102 tc-sfq-qopt-v1
    { 72 72 466 12; 4046 "v0" 0 20 Fields(Struct(100)), 4048 "depth" 20 4 U32,
    4053 "headdrop" 24 4 U32, 4061 "limit" 28 4 U32, 4066 "qth_min" 32 4 U32,
    4073 "qth_max" 36 4 U32, 4080 "Wlog" 40 1 U8, 4084 "Plog" 41 1 U8, 4088 "Scell_log" 42 1 U8,
    4097 "flags" 43 1 U8, 4102 "max_P" 44 4 U32, 4107 "stats" 48 24 Fields(Struct(101)) }
    // 103 tc-ratespec
    { 12 12 478 6; 4112 "cell_log" 0 1 U8, 4120 "linklayer" 1 1 Value(Number::U8, Names(106)),
    4129 "overhead" 2 2 U16, 4137 "cell_align" 4 2 I16, 4147 "mpu" 6 2 U16, 4150 "rate" 8 4 U32 }
    // 104 tc-tbf-qopt
    { 36 36 484 5; 4154 "rate" 0 12 Fields(Struct(103)),
    4158 "peakrate" 12 12 Fields(Struct(103)), 4166 "limit" 24 4 U32, 4171 "buffer" 28 4 U32,
    4177 "mtu" 32 4 U32 }
    // 105 tc-sizespec
    { 24 24 489 8; 4180 "cell_log" 0 1 U8, 4188 "size_log" 1 1 U8, 4196 "cell_align" 2 2 I16,
    4206 "overhead" 4 4 I32, 4214 "linklayer" 8 4 U32, 4223 "mpu" 12 4 U32, 4226 "mtu" 16 4 U32,
    4229 "tsize" 20 4 U32 }
    { 2 2 497 2; 4234 "interval" 0 1 I8, 4242 "ewma_log" 1 1 U8 } // 106 gnet-estimator
    // 107 tc-choke-xstats
    { 20 20 499 5; 4250 "early" 0 4 U32, 4255 "pdrop" 4 4 U32, 4260 "other" 8 4 U32,
    4265 "marked" 12 4 U32, 4271 "matched" 16 4 U32 }
    // 108 tc-codel-xstats
    { 36 36 504 9; 4278 "maxpacket" 0 4 U32, 4287 "count" 4 4 U32, 4292 "lastcount" 8 4 U32,
    4301 "ldelay" 12 4 U32, 4307 "drop_next" 16 4 I32, 4316 "drop_overlimit" 20 4 U32,
    4330 "ecn_mark" 24 4 U32, 4338 "dropping" 28 4 U32, 4346 "ce_mark" 32 4 U32 }
    // 109 tc-fq-codel-xstats
    { 40 40 513 10; 4353 "type" 0 4 Value(Number::U32, Names(109)),
    4357 "qdisc_stats.maxpacket" 4 4 U32, 4378 "qdisc_stats.drop_overlimit" 8 4 U32,
    4404 "qdisc_stats.ecn_mark" 12 4 U32, 4424 "qdisc_stats.new_flow_count" 16 4 U32,
    4450 "qdisc_stats.new_flows_len" 20 4 U32, 4475 "qdisc_stats.old_flows_len" 24 4 U32,
    4500 "qdisc_stats.ce_mark" 28 4 U32, 4519 "qdisc_stats.memory_usage" 32 4 U32,
    4543 "qdisc_stats.drop_overmemory" 36 4 U32 }
    // 110 tc-fq-pie-xstats
    { 36 36 523 9; 4570 "packets_in" 0 4 U32, 4580 "dropped" 4 4 U32, 4587 "overlimit" 8 4 U32,
    4596 "overmemory" 12 4 U32, 4606 "ecn_mark" 16 4 U32, 4614 "new_flow_count" 20 4 U32,
    4628 "new_flows_len" 24 4 U32, 4641 "old_flows_len" 28 4 U32, 4654 "memory_usage" 32 4 U32 }
    // 111 tc-fq-qd-stats
    { 152 152 532 18; 4666 "gc_flows" 0 8 U64, 4674 "highprio_packets" 8 8 U64,
    4690 "tcp_retrans" 16 8 U64, 4701 "throttled" 24 8 U64, 4710 "flows_plimit" 32 8 U64,
    4722 "pkts_too_long" 40 8 U64, 4735 "allocation_errors" 48 8 U64,
    4752 "time_next_delayed_flow" 56 8 I64, 4774 "flows" 64 4 U32, 4779 "inactive_flows" 68 4 U32,
    4793 "throttled_flows" 72 4 U32, 4808 "unthrottle_latency_ns" 76 4 U32,
    4829 "ce_mark" 80 8 U64, 4836 "horizon_drops" 88 8 U64, 4849 "horizon_caps" 96 8 U64,
    4861 "fastpath_packets" 104 8 U64, 4877 "band_drops" 112 24 Series(Number::U64),
    4887 "band_pkt_count" 136 12 Series(Number::U32) }
    // 112 tc-hhf-xstats
    { 16 16 550 4; 4901 "drop_overlimit" 0 4 U32, 4915 "hh_overlimit" 4 4 U32,
    4927 "hh_tot_count" 8 4 U32, 4939 "hh_cur_count" 12 4 U32 }
    // 113 tc-pie-xstats
    { 40 40 554 9; 4951 "prob" 0 8 U64, 4955 "delay" 8 4 U32, 4960 "avg_dq_rate" 12 4 U32,
    4971 "dq_rate_estimating" 16 4 U32, 4989 "packets_in" 20 4 U32, 4999 "dropped" 24 4 U32,
    5006 "overlimit" 28 4 U32, 5015 "maxq" 32 4 U32, 5019 "ecn_mark" 36 4 U32 }
    // 114 tc-red-xstats
    { 16 16 563 4; 5027 "early" 0 4 U32, 5032 "pdrop" 4 4 U32, 5037 "other" 8 4 U32,
    5042 "marked" 12 4 U32 }
    // 115 tc-sfb-xstats
    { 36 36 567 9; 5048 "earlydrop" 0 4 U32, 5057 "penaltydrop" 4 4 U32,
    5068 "bucketdrop" 8 4 U32, 5078 "queuedrop" 12 4 U32, 5087 "childdrop" 16 4 U32,
    5096 "marked" 20 4 U32, 5102 "maxqlen" 24 4 U32, 5109 "maxprob" 28 4 U32,
    5116 "avgprob" 32 4 U32 }
    { 4 4 576 1; 5123 "allot" 0 4 I32 } // 116 tc-sfq-xstats
    // 117 tc-htb-xstats
    { 20 20 577 5; 5128 "lends" 0 4 U32, 5133 "borrows" 4 4 U32, 5140 "giants" 8 4 U32,
    5146 "tokens" 12 4 I32, 5152 "ctokens" 16 4 I32 }
    { 4 4 582 1; 5159 "deficit" 0 4 U32 } // 118 tc-drr-stats
    { 8 8 583 2; 5166 "weight" 0 4 U32, 5172 "lmax" 4 4 U32 } // 119 tc-qfq-stats
    { 16 16 585 2; 5176 "bytes" 0 8 U64, 5181 "packets" 8 4 U32 } // 120 gnet-stats-basic
    { 8 8 587 2; 5188 "bps" 0 4 U32, 5191 "pps" 4 4 U32 } // 121 gnet-stats-rate-est
    { 16 16 589 2; 5194 "bps" 0 8 U64, 5197 "pps" 8 8 U64 } // 122 gnet-stats-rate-est64
    // 123 gnet-stats-queue
    { 20 20 591 5; 5200 "qlen" 0 4 U32, 5204 "backlog" 4 4 U32, 5211 "drops" 8 4 U32,
    5216 "requeues" 12 4 U32, 5224 "overlimits" 16 4 U32 }
    // 124 tc-u32-key
    { 16 16 596 4; 5234 "mask" 0 4 NETWORK_U32, 5238 "val" 4 4 NETWORK_U32, 5241 "off" 8 4 I32,
    5244 "offmask" 12 4 I32 }
    // 125 tc-u32-mark
    { 12 12 600 3; 5251 "val" 0 4 U32, 5254 "mask" 4 4 U32, 5258 "success" 8 4 U32 }
    // 126 tc-u32-sel
    { 16 65535 603 9; 5265 "flags" 0 1 U8, 5270 "offshift" 1 1 U8, 5278 "nkeys" 2 1 U8,
    5283 "offmask" 4 2 NETWORK_U16, 5290 "off" 6 2 U16, 5293 "offoff" 8 2 I16,
    5299 "hoff" 10 2 I16, 5303 "hmask" 12 4 NETWORK_U32, 5308 "keys" 16 0 Array(Struct(124)) }
    // 127 tc-u32-pcnt
    { 16 65535 612 3; 5312 "rcnt" 0 8 U64, 5316 "rhit" 8 8 U64,
    5320 "kcnts" 16 0 Series(Number::U64) }
    // 128 tcf-t
    { 32 32 615 4; 5325 "install" 0 8 U64, 5332 "lastuse" 8 8 U64, 5339 "expires" 16 8 U64,
    5346 "firstuse" 24 8 U64 }
    // 129 tc-gact
    { 20 20 619 5; 5354 "index" 0 4 U32, 5359 "capab" 4 4 U32,
    5364 "action" 8 4 Value(Number::I32, Names(95)), 5370 "refcnt" 12 4 I32,
    5376 "bindcnt" 16 4 I32 }
    // 130 tc-gact-p
    { 8 8 624 3; 5383 "ptype" 0 2 U16, 5388 "pval" 2 2 U16,
    5392 "paction" 4 4 Value(Number::I32, Names(95)) }
    { 4 4 627 2; 5399 "nmatches" 0 2 U16, 5407 "progid" 2 2 U16 } // 131 tcf-ematch-tree-hdr
    // 132 tcf-ematch-hdr
    { 8 8 629 3; 5413 "matchid" 0 2 U16, 5420 "kind" 2 2 Value(Number::U16, Names(118)),
    5424 "flags" 4 2 U16 }
    { 16 16 632 2; 5429 "rcnt" 0 8 U64, 5433 "rhit" 8 8 U64 } // 133 tc-basic-pcnt
    { 8 8 634 1; 5437 "rhit" 0 8 U64 } // 134 tc-matchall-pcnt
    // 135 tc-mpls
    { 24 24 635 6; 5441 "index" 0 4 U32, 5446 "capab" 4 4 U32,
    5451 "action" 8 4 Value(Number::I32, Names(95)), 5457 "refcnt" 12 4 I32,
    5463 "bindcnt" 16 4 I32, 5470 "m_action" 20 4 Value(Number::I32, Names(98)) }
    // 136 tc-police
    { 56 56 641 10; 5478 "index" 0 4 U32, 5483 "action" 4 4 Value(Number::I32, Names(95)),
    5489 "limit" 8 4 U32, 5494 "burst" 12 4 U32, 5499 "mtu" 16 4 U32,
    5502 "rate" 20 12 Fields(Struct(103)), 5506 "peakrate" 32 12 Fields(Struct(103)),
    5514 "refcnt" 44 4 I32, 5520 "bindcnt" 48 4 I32, 5527 "capab" 52 4 U32 }
    // 137 tc-pedit-sel
    { 24 65535 651 8; 5532 "index" 0 4 U32, 5537 "capab" 4 4 U32,
    5542 "action" 8 4 Value(Number::I32, Names(95)), 5548 "refcnt" 12 4 I32,
    5554 "bindcnt" 16 4 I32, 5561 "nkeys" 20 1 U8, 5566 "flags" 21 1 U8,
    5571 "keys" 24 0 Array(Struct(138)) }
    // 138 tc-pedit-key
    { 24 24 659 6; 5575 "mask" 0 4 U32, 5579 "val" 4 4 U32, 5582 "off" 8 4 U32,
    5585 "at" 12 4 U32, 5587 "offmask" 16 4 U32, 5594 "shift" 20 4 U32 }
    // 139 tc-vlan
    { 24 24 665 6; 5599 "index" 0 4 U32, 5604 "capab" 4 4 U32,
    5609 "action" 8 4 Value(Number::I32, Names(95)), 5615 "refcnt" 12 4 I32,
    5621 "bindcnt" 16 4 I32, 5628 "v_action" 20 4 Value(Number::I32, Names(97)) }
    // 140 tc-act-bpf
    { 20 20 671 5; 5636 "index" 0 4 U32, 5641 "capab" 4 4 U32,
    5646 "action" 8 4 Value(Number::I32, Names(95)), 5652 "refcnt" 12 4 I32,
    5658 "bindcnt" 16 4 I32 }
    // 141 tc-connmark
    { 24 24 676 6; 5665 "index" 0 4 U32, 5670 "capab" 4 4 U32,
    5675 "action" 8 4 Value(Number::I32, Names(95)), 5681 "refcnt" 12 4 I32,
    5687 "bindcnt" 16 4 I32, 5694 "zone" 20 2 U16 }
    // 142 tc-csum
    { 24 24 682 6; 5698 "index" 0 4 U32, 5703 "capab" 4 4 U32,
    5708 "action" 8 4 Value(Number::I32, Names(95)), 5714 "refcnt" 12 4 I32,
    5720 "bindcnt" 16 4 I32, 5727 "update_flags" 20 4 U32 }
    // 143 tc-ct
    { 20 20 688 5; 5739 "index" 0 4 U32, 5744 "capab" 4 4 U32,
    5749 "action" 8 4 Value(Number::I32, Names(95)), 5755 "refcnt" 12 4 I32,
    5761 "bindcnt" 16 4 I32 }
    // 144 tc-ctinfo
    { 20 20 693 5; 5768 "index" 0 4 U32, 5773 "capab" 4 4 U32,
    5778 "action" 8 4 Value(Number::I32, Names(95)), 5784 "refcnt" 12 4 I32,
    5790 "bindcnt" 16 4 I32 }
    // 145 tc-gate
    { 20 20 698 5; 5797 "index" 0 4 U32, 5802 "capab" 4 4 U32,
    5807 "action" 8 4 Value(Number::I32, Names(95)), 5813 "refcnt" 12 4 I32,
    5819 "bindcnt" 16 4 I32 }
    // 146 tc-ife
    { 24 24 703 6; 5826 "index" 0 4 U32, 5831 "capab" 4 4 U32,
    5836 "action" 8 4 Value(Number::I32, Names(95)), 5842 "refcnt" 12 4 I32,
    5848 "bindcnt" 16 4 I32, 5855 "flags" 20 2 U16 }
    // 147 tc-mirred
    { 28 28 709 7; 5860 "index" 0 4 U32, 5865 "capab" 4 4 U32,
    5870 "action" 8 4 Value(Number::I32, Names(95)), 5876 "refcnt" 12 4 I32,
    5882 "bindcnt" 16 4 I32, 5889 "eaction" 20 4 Value(Number::I32, Names(96)),
    5896 "ifindex" 24 4 U32 }
    // 148 tc-nat
    { 36 36 716 9; 5903 "index" 0 4 U32, 5908 "capab" 4 4 U32,
    5913 "action" 8 4 Value(Number::I32, Names(95)), 5919 "refcnt" 12 4 I32,
    5925 "bindcnt" 16 4 I32, 5932 "old_addr" 20 4 Ipv4, 5940 "new_addr" 24 4 Ipv4,
    5948 "mask" 28 4 Ipv4, 5952 "flags" 32 4 U32 }
    // 149 tc-sample
    { 20 20 725 5; 5957 "index" 0 4 U32, 5962 "capab" 4 4 U32,
    5967 "action" 8 4 Value(Number::I32, Names(95)), 5973 "refcnt" 12 4 I32,
    5979 "bindcnt" 16 4 I32 }
    // 150 tc-defact
    { 20 20 730 5; 5986 "index" 0 4 U32, 5991 "capab" 4 4 U32,
    5996 "action" 8 4 Value(Number::I32, Names(95)), 6002 "refcnt" 12 4 I32,
    6008 "bindcnt" 16 4 I32 }
    // 151 tc-skbedit
    { 20 20 735 5; 6015 "index" 0 4 U32, 6020 "capab" 4 4 U32,
    6025 "action" 8 4 Value(Number::I32, Names(95)), 6031 "refcnt" 12 4 I32,
    6037 "bindcnt" 16 4 I32 }
    // 152 tc-skbmod
    { 32 32 740 6; 6044 "index" 0 4 U32, 6049 "capab" 4 4 U32,
    6054 "action" 8 4 Value(Number::I32, Names(95)), 6060 "refcnt" 12 4 I32,
    6066 "bindcnt" 16 4 I32, 6073 "flags" 24 8 U64 }
    // 153 tc-tunnel-key
    { 24 24 746 6; 6078 "index" 0 4 U32, 6083 "capab" 4 4 U32,
    6088 "action" 8 4 Value(Number::I32, Names(95)), 6094 "refcnt" 12 4 I32,
    6100 "bindcnt" 16 4 I32, 6107 "t_action" 20 4 Value(Number::I32, Names(99)) }
    // 154 tcf-meta-hdr
    { 8 8 752 2; 6115 "left" 0 4 Fields(Struct(155)), 6119 "right" 4 4 Fields(Struct(155)) }
    { 4 4 754 3; 6124 "kind" 0 2 U16, 6128 "shift" 2 1 U8, 6133 "op" 3 1 U8 } // 155 tcf-meta-val
    // 156 tc-hfsc-stats
    { 24 24 757 4; 6135 "work" 0 8 U64, 6139 "rtwork" 8 8 U64, 6145 "period" 16 4 U32,
    6151 "level" 20 4 U32 }
    // 157 ieee-ets
    { 59 59 761 10; 6156 "willing" 0 1 U8, 6163 "ets_cap" 1 1 U8, 6170 "cbs" 2 1 U8,
    6173 "tc_tx_bw" 3 8 Series(Number::U8), 6181 "tc_rx_bw" 11 8 Series(Number::U8),
    6189 "tc_tsa" 19 8 Series(Number::U8), 6195 "prio_tc" 27 8 Series(Number::U8),
    6202 "tc_reco_bw" 35 8 Series(Number::U8), 6212 "tc_reco_tsa" 43 8 Series(Number::U8),
    6223 "reco_prio_tc" 51 8 Series(Number::U8) }
    // 158 ieee-pfc
    { 136 136 771 6; 6235 "pfc_cap" 0 1 U8, 6242 "pfc_en" 1 1 U8, 6248 "mbc" 2 1 U8,
    6251 "delay" 4 2 U16, 6256 "requests" 8 64 Series(Number::U64),
    6264 "indications" 72 64 Series(Number::U64) }
    { 64 64 777 1; 6275 "tc_maxrate" 0 64 Series(Number::U64) } // 159 ieee-maxrate
    // 160 ieee-qcn
    { 360 360 778 12; 6285 "rpg_enable" 0 8 Series(Number::U8),
    6295 "rppp_max_rps" 8 32 Series(Number::U32), 6307 "rpg_time_reset" 40 32 Series(Number::U32),
    6321 "rpg_byte_reset" 72 32 Series(Number::U32),
    6335 "rpg_threshold" 104 32 Series(Number::U32),
    6348 "rpg_max_rate" 136 32 Series(Number::U32), 6360 "rpg_ai_rate" 168 32 Series(Number::U32),
    6371 "rpg_hai_rate" 200 32 Series(Number::U32), 6383 "rpg_gd" 232 32 Series(Number::U32),
    6389 "rpg_min_dec_fac" 264 32 Series(Number::U32),
    6404 "rpg_min_rate" 296 32 Series(Number::U32),
    6416 "cndd_state_machine" 328 32 Series(Number::U32) }
    // 161 ieee-qcn-stats
    { 96 96 790 2; 6434 "rppp_rp_centiseconds" 0 64 Series(Number::U64),
    6454 "rppp_created_rps" 64 32 Series(Number::U32) }
    // 162 dcbnl-buffer
    { 44 44 792 3; 6470 "prio2buffer" 0 8 Series(Number::U8),
    6481 "buffer_size" 8 32 Series(Number::U32), 6492 "total_size" 40 4 U32 }
    // 163 dcb-app
    { 4 4 795 3; 6502 "selector" 0 1 U8, 6510 "priority" 1 1 U8, 6518 "protocol" 2 2 U16 }
    { 2 2 798 2; 6526 "willing" 0 1 U8, 6533 "error" 1 1 U8 } // 164 dcb-peer-app-info
    // 165 cee-pg
    { 20 20 800 6; 6538 "willing" 0 1 U8, 6545 "error" 1 1 U8, 6550 "pg_en" 2 1 U8,
    6555 "tcs_supported" 3 1 U8, 6568 "pg_bw" 4 8 Series(Number::U8),
    6573 "prio_pg" 12 8 Series(Number::U8) }
    // 166 cee-pfc
    { 4 4 806 4; 6580 "willing" 0 1 U8, 6587 "error" 1 1 U8, 6592 "pfc_en" 2 1 U8,
    6598 "tcs_supported" 3 1 U8 }
    { 4 4 810 1; 6611 "u32" 0 4 U32 } // 167 u32
    // 168 bitfield of tc-action-flags
    { 8 8 811 2; 6614 "value" 0 4 Bits(Number::U32, Names(100)),
    6619 "selector" 4 4 Bits(Number::U32, Names(100)) }
    // 169 bitfield of tc-action-dump-flags
    { 8 8 813 2; 6627 "value" 0 4 Bits(Number::U32, Names(101)),
    6632 "selector" 4 4 Bits(Number::U32, Names(101)) }
    } };
}

pub(crate) use structs;
